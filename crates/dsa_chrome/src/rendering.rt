//! A document in, the Chrome trace of its run out.

ghost use Rattle.std.specs.Prelude.{◌≡◌, [], None};
ghost use Rattle.dsa_event_text.specs.Added.{Adds};
ghost use Rattle.dsa_chrome.specs.Pages.{made_in, events_made};
ghost use Rattle.dsa_chrome.specs.Traces.{engine_thread, names_of_trace, held_text, IsChromeTrace, IsChromeTraceOf, lane_part, lanes_text, meta_text, process_text, sort_index, step_threads, device_thread};

use crate::events::add_text;
use crate::lanes::{Lane, Work};
use crate::page::Page;
use crate::slices::add_slice;
use dsa_device::Device;
use dsa_event_text::add_number;
use dsa_scenario::{Added, Asked, MadeText, Render, RenderSteps, Rendered, StepMade, render_steps};
use dsa_store::EntryStore;
use std::alloc::Global;
use std::fmt::Write;

/// The Chrome trace of a document's run, as a way to make a text of it.
#[derive(Clone, Copy, Debug, PartialEq, Eq)]
pub struct ChromeTrace;

// What comes before the name of a process or of a thread, or its place among others.
#[tactic(auto, unfolding(crate::specs::Traces::meta_text))]
fn add_meta(text: &mut String, kind: &str, process: u32, thread: usize) -> Added
    ensures { Adds result text.old text.new (meta_text kind.now process thread) }
{
    write!(
        text,
        ",\n{{\"name\":\"{kind}\",\"ph\":\"M\",\"pid\":{process},\"tid\":{thread},\"args\":{{"
    )
}

fn add_process(text: &mut String, process: u32, name: &str) -> Added
    ensures { Adds result text.old text.new (process_text process name.now) }
{
    add_meta(text, "process_name", process, 0)?;
    add_text(text, name)
}

fn add_thread(text: &mut String, thread: usize, name: &str) -> Added
    ensures { Adds result text.old text.new (device_thread thread name.now) }
{
    add_meta(text, "thread_name", 1, thread)?;
    add_text(text, name)
}

fn add_engine(text: &mut String, process: u32, thread: usize, engine: u16) -> Added
    ensures { Adds result text.old text.new (engine_thread process thread engine) }
{
    add_meta(text, "thread_name", process, thread)?;
    add_number(text, "\"name\":\"engine ", u32::from(engine))?;
    add_text(text, "\"}}")
}

// The place of the thread of a lane beside those of other engines.
fn add_sort_index(text: &mut String, thread: usize, engine: u16) -> Added
    ensures { Adds result text.old text.new (sort_index thread engine) }
{
    add_meta(text, "thread_sort_index", 2, thread)?;
    add_number(text, "\"sort_index\":", u32::from(engine))?;
    add_text(text, "}}")
}

// The names of the threads of so many engines' steps.
fn add_step_threads(text: &mut String, engines: u16) -> Added
    ensures { Adds result text.old text.new (step_threads engines) }
{
    for engine in 0..engines {
        add_engine(text, 3, usize::from(engine) + 1, engine)?;
    }
    Ok(())
}

// The names of the processes and of the threads that each trace has.
fn add_head(text: &mut String, engines: u16) -> Added
    ensures { Adds result text.old text.new (names_of_trace engines) }
{
    add_text(
        text,
        "{\"traceEvents\":[\n{\"name\":\"process_name\",\"ph\":\"M\",\"pid\":1,",
    )?;
    add_text(text, "\"tid\":0,\"args\":{\"name\":\"device\"}}")?;
    add_process(text, 2, "\"name\":\"engines\"}}")?;
    add_process(text, 3, "\"name\":\"steps of engines\"}}")?;
    add_thread(text, 1, "\"name\":\"clients\"}}")?;
    add_thread(text, 2, "\"name\":\"administrator\"}}")?;
    add_step_threads(text, engines)
}

fn add_held(text: &mut String, thread: usize, work: Option<Work>) -> Added
    ensures { Adds result text.old text.new (held_text thread work) }
{
    match work {
        Some(work) => add_slice(text, thread, &work, None),
        None => Ok(()),
    }
}

fn add_lane(text: &mut String, thread: usize, lane: &Lane) -> Added
    ensures { Adds result text.old text.new (lane_part thread lane.now) }
{
    add_engine(text, 2, thread, lane.engine)?;
    add_sort_index(text, thread, lane.engine)?;
    add_held(text, thread, lane.work)
}

// The names of the lanes, and what is held in them.
fn add_lanes(text: &mut String, lanes: &[Lane]) -> Added
    ensures { Adds result text.old text.new (lanes_text 1 lanes.now) }
{
    for (place, lane) in lanes.iter().enumerate() {
        add_lane(text, place + 1, lane)?;
    }
    Ok(())
}

impl RenderSteps for ChromeTrace {
    type Page = Page;

    ghost told_before = { λ chrome now asked. [] };

    ghost is_page = { λ chrome steps page. made_in page ≡ events_made steps };

    ghost is_text = { λ chrome. IsChromeTraceOf };

    fn open(&self, alloc: Global) -> Page {
        Page {
            text: String::new(alloc),
            lanes: Vec::new(alloc),
            clients: Vec::new(alloc),
        }
    }

    fn look<S: EntryStore>(&self, alloc: Global, _device: &Device<S>, _asked: &Asked) -> MadeText {
        Ok(String::new(alloc))
    }

    fn add_step<S: EntryStore>(&self, page: &mut Page, step: &StepMade<'_, S>) -> Added {
        page.add_step(step.number, step.entry, step.device)
    }

    fn finish<S: EntryStore>(&self, alloc: Global, page: Page, device: &Device<S>) -> MadeText {
        let mut text = String::new(alloc);
        add_head(&mut text, device.caps().engines)?;
        text.push_str(&page.text)?;
        add_lanes(&mut text, &page.lanes)?;
        text.push_str("\n]}\n")?;
        Ok(text)
    }
}

impl Render for ChromeTrace {
    ghost is_rendering = { λ chrome bytes fault text. (fault ≡ None)
        × IsChromeTrace bytes text };

    fn render(&self, alloc: Global, bytes: &[u8]) -> Rendered {
        render_steps(alloc, self, bytes)
    }
}
