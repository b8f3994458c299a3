//! The texts that searches of documents give: each document has a set-up and parties.

use dsa_exploration::{Bounds, Exploring, Form, Sampling, Showing, Walks};
use dsa_scenario::{Render, Rendered, ScenarioFault};
use std::alloc::{AllocError, Global};
use std::process::Abort;

// A device of one queue and one engine.
const HEAD: &str = concat!(
    r#"{"caps":{"queues":1,"groups":1,"engines":1,"total_size":8,"read_buffers":32,"slots":2,"#,
    r#""max_batch_shift":3,"max_xfer_shift":20},"capacity":9,"steps":["#,
);

// Both are enabled.
const ENABLED: &str = concat!(
    r#"{"do":"queue","queue":0,"size":4,"threshold":2,"dedicated":false,"priority":1,"pasid":0,"#,
    r#""batch":3,"xfer":20},"#,
    r#"{"do":"group","group":0,"queues":1,"engines":1,"reserved":0,"allowed":32},"#,
    r#"{"do":"command","word":1048576},{"do":"command","word":6291456}"#,
);

// A Move of 4096 bytes.
const MOVE: &str = concat!(
    r#"{"do":"enqcmd","queue":0,"limited":true,"pasid":1,"as":"x","desc":""#,
    r#"000000000000000300000000000000000000000000000000000000000000000000100000"}"#,
);

// The same as a step of a run.
const SUBMITTED: &str = concat!(
    r#",{"do":"enqcmd","client":0,"queue":0,"limited":true,"pasid":1,"desc":""#,
    r#"000000000000000300000000000000000000000000000000000000000000000000100000"}"#,
);

const DRAIN: &str = r#"{"do":"command","word":3145728},{"do":"poll","until":"finished"}"#;

// Bounds in which all is found.
const ENOUGH: Bounds = Bounds {
    states: 100,
    key_bytes: 1000,
};

// The parts one after the other.
fn joined(alloc: Global, parts: &[&str]) -> Result<String, AllocError> {
    let mut text = String::new(alloc);
    for part in parts {
        text.push_str(part)?;
    }
    Ok(text)
}

// What a search of this document gives.
fn searched(rt: &impl Abort, alloc: Global, exploring: Exploring, parts: &[&str]) -> Rendered {
    match joined(alloc, parts) {
        Ok(document) => exploring.render(alloc, document.as_bytes()),
        Err(_) => panic!(rt; "there is no memory"),
    }
}

// What a document with this set-up and these parties is to give: a text, and the fault after it.
#[derive(Clone, Copy)]
struct Given {
    form: Form,
    bounds: Bounds,
    setup: &'static str,
    parties: &'static [&'static str],
    text: &'static str,
    fault: Option<ScenarioFault>,
}

fn gives(rt: &impl Abort, alloc: Global, given: &Given) {
    let mut parts = Vec::new(alloc);
    let _ = parts.extend_from_slice(&[HEAD, ENABLED, given.setup, "]"]);
    let _ = parts.extend_from_slice(given.parties);
    let _ = parts.push("}");
    let exploring = Exploring {
        form: given.form,
        bounds: given.bounds,
    };
    match searched(rt, alloc, exploring, parts.as_slice()) {
        Ok(rendering) => {
            assert_eq!(rt; rendering.text.as_str(), given.text);
            assert_eq!(rt; rendering.fault, given.fault);
        }
        Err(_) => panic!(rt; "there is no text"),
    }
}

const ONE_CLIENT: &[&str] = &[r#","parties":{"clients":[{"steps":["#, MOVE, "]}]}"];

// A search that is complete, and one that may store two states.
#[test]
fn one_client(rt: HostRuntime) {
    let given = Given {
        form: Form::Table,
        bounds: ENOUGH,
        setup: "",
        parties: ONE_CLIENT,
        text: concat!(
            "x: accepted [1], completed 01 [3]\n",
            "ends: all through [3]\n",
            "4 states, 11 steps, depth 3, complete\n",
        ),
        fault: None,
    };
    gives(&rt, rt.alloc(), &given);
    let bounds = Bounds {
        states: 2,
        ..ENOUGH
    };
    let bounded = Given {
        bounds,
        text: "x: accepted [1]\n2 states, 4 steps, depth 1, bounded\n",
        fault: Some(ScenarioFault::Incomplete),
        ..given
    };
    gives(&rt, rt.alloc(), &bounded);
}

// A client, and an administrator who drains and polls.
#[test]
fn one_client_and_a_drain(rt: HostRuntime) {
    let given = Given {
        form: Form::Table,
        bounds: ENOUGH,
        setup: "",
        parties: &[
            r#","parties":{"clients":[{"steps":["#,
            MOVE,
            r#"]}],"admins":[{"steps":["#,
            DRAIN,
            "]}]}",
        ],
        text: concat!(
            "x: accepted [1], completed 01 [3]\n",
            "A0: ended 0 [1], active [2]; waits for x [2]\n",
            "A1: nothing [2], active [3], finished [5]\n",
            "ends: stuck at A1 [4], all through [5]\n",
            "12 states, 43 steps, depth 5, complete\n",
        ),
        fault: None,
    };
    gives(&rt, rt.alloc(), &given);
}

// A client, and questions about what becomes of its entry.
const ABOUT_ROWS: &[&str] = &[
    r#","parties":{"clients":[{"steps":["#,
    MOVE,
    r#"]}]},"never":[{"that":{"entry":"x","is":"aborted"}},"#,
    r#"{"name":"x ends","that":{"any":[{"entry":"x","is":"completed"}]}}],"#,
    r#""sometimes":[{"that":{"entry":"x","is":"failed"}}]"#,
];

// Questions, where the search is complete and where it met its bounds.
#[test]
fn questions(rt: HostRuntime) {
    let given = Given {
        form: Form::Table,
        bounds: ENOUGH,
        setup: "",
        parties: ABOUT_ROWS,
        text: concat!(
            "x: accepted [1], completed 01 [3]\n",
            "ends: all through [3]\n",
            "never 0: kept\n",
            "never x ends: broken [3]\n",
            "sometimes 2: broken\n",
            "4 states, 11 steps, depth 3, complete\n",
        ),
        fault: Some(ScenarioFault::Broken(1)),
    };
    gives(&rt, rt.alloc(), &given);
    let bounds = Bounds {
        states: 2,
        ..ENOUGH
    };
    let bounded = Given {
        bounds,
        text: concat!(
            "x: accepted [1]\n",
            "never 0: kept so far\n",
            "never x ends: kept so far\n",
            "sometimes 2: not seen so far\n",
            "2 states, 4 steps, depth 1, bounded\n",
        ),
        fault: Some(ScenarioFault::Incomplete),
        ..given
    };
    gives(&rt, rt.alloc(), &bounded);
}

// The same client, and questions about states.
const ABOUT_STATES: &[&str] = &[
    r#","parties":{"clients":[{"steps":["#,
    MOVE,
    r#"]}]},"never":[{"that":{"all":[{"entry":"x","is":"completed"},"#,
    r#"{"entry":"x","is":"held"}]}}],"sometimes":[{"that":{"all":["#,
    r#"{"client":0},{"entry":"x","is":"waiting"}]}},{"that":{"not":{"any":["#,
    r#"{"queue":0,"occupancy":1},{"not":{"entry":"x","is":"held"}}]}}}],"#,
    r#""always":[{"that":{"queue":0,"phase":"on"}},{"that":{"client":0}}]"#,
];

// Questions about states: what holds together, and what holds always.
#[test]
fn states(rt: HostRuntime) {
    let given = Given {
        form: Form::Table,
        bounds: ENOUGH,
        setup: "",
        parties: ABOUT_STATES,
        text: concat!(
            "x: accepted [1], completed 01 [3]\n",
            "ends: all through [3]\n",
            "never 0: kept\n",
            "sometimes 1: kept [1]\n",
            "sometimes 2: kept [2]\n",
            "always 3: kept\n",
            "always 4: broken [0]\n",
            "4 states, 11 steps, depth 3, complete\n",
        ),
        fault: Some(ScenarioFault::Broken(4)),
    };
    gives(&rt, rt.alloc(), &given);
    let bounds = Bounds {
        states: 2,
        ..ENOUGH
    };
    let bounded = Given {
        bounds,
        text: concat!(
            "x: accepted [1]\n",
            "never 0: kept so far\n",
            "sometimes 1: kept [1]\n",
            "sometimes 2: not seen so far\n",
            "always 3: kept so far\n",
            "always 4: broken [0]\n",
            "2 states, 4 steps, depth 1, bounded\n",
        ),
        ..given
    };
    gives(&rt, rt.alloc(), &bounded);
}

// How many steps a document has: it and its capabilities are objects, too.
fn steps_of(document: &str) -> usize {
    let objects = document.bytes().filter(|byte| *byte == b'{').count();
    objects.saturating_sub(2)
}

// What is shown of a document with these parties, in which this is called: so many steps, or no
// text and this fault.
fn shows(
    rt: &impl Abort,
    alloc: Global,
    parties: &[&str],
    states: u32,
    called: &str,
    found: Result<usize, ScenarioFault>,
) {
    let mut parts = Vec::new(alloc);
    let _ = parts.extend_from_slice(&[HEAD, ENABLED, "]"]);
    let _ = parts.extend_from_slice(parties);
    let _ = parts.push("}");
    let bounds = Bounds { states, ..ENOUGH };
    let showing = Showing {
        bounds,
        row: called,
    };
    let Ok(document) = joined(alloc, parts.as_slice()) else {
        panic!(rt; "there is no memory");
    };
    let Ok(rendering) = showing.render(alloc, document.as_bytes()) else {
        panic!(rt; "there is no text");
    };
    match found {
        Ok(steps) => {
            assert_eq!(rt; rendering.fault, None);
            assert_eq!(rt; steps_of(rendering.text.as_str()), steps);
        }
        Err(fault) => {
            assert_eq!(rt; rendering.fault, Some(fault));
            assert_eq!(rt; rendering.text.as_str(), "");
        }
    }
}

// A broken `never` is shown by as many steps as it has in brackets, after the four of the set-up. A
// kept one is not, nor is a `sometimes` that is broken.
#[test]
fn questions_about_rows_are_shown(rt: HostRuntime) {
    let none = Err(ScenarioFault::NoSuchRow);
    let so_far = Err(ScenarioFault::Incomplete);
    shows(&rt, rt.alloc(), ABOUT_ROWS, 100, "never x ends", Ok(7));
    shows(&rt, rt.alloc(), ABOUT_ROWS, 100, "x: completed 01", Ok(7));
    shows(&rt, rt.alloc(), ABOUT_ROWS, 100, "never 0", none);
    shows(&rt, rt.alloc(), ABOUT_ROWS, 100, "sometimes 2", none);
    shows(&rt, rt.alloc(), ABOUT_ROWS, 100, "sometimes x ends", none);
    shows(&rt, rt.alloc(), ABOUT_ROWS, 2, "never x ends", so_far);
}

// Questions about states are shown so, too, also by a search that met its bounds. No step leads to
// the first state.
#[test]
fn questions_about_states_are_shown(rt: HostRuntime) {
    let none = Err(ScenarioFault::NoSuchRow);
    let so_far = Err(ScenarioFault::Incomplete);
    shows(&rt, rt.alloc(), ABOUT_STATES, 100, "always 4", Ok(4));
    shows(&rt, rt.alloc(), ABOUT_STATES, 100, "sometimes 1", Ok(5));
    shows(&rt, rt.alloc(), ABOUT_STATES, 100, "sometimes 2", Ok(6));
    shows(&rt, rt.alloc(), ABOUT_STATES, 100, "never 0", none);
    shows(&rt, rt.alloc(), ABOUT_STATES, 100, "always 3", none);
    shows(&rt, rt.alloc(), ABOUT_STATES, 2, "sometimes 1", Ok(5));
    shows(&rt, rt.alloc(), ABOUT_STATES, 2, "sometimes 2", so_far);
    shows(&rt, rt.alloc(), ABOUT_STATES, 2, "always 3", so_far);
}

// A row is shown without its document's questions, which are bad here; a question is not.
#[test]
fn bad_questions_are_read_for_questions(rt: HostRuntime) {
    let parties = &[
        r#","parties":{"clients":[{"steps":["#,
        MOVE,
        r#"]}]},"never":[5]"#,
    ];
    let bad = Err(ScenarioFault::BadQuestion(0));
    shows(&rt, rt.alloc(), parties, 100, "x: accepted", Ok(5));
    shows(&rt, rt.alloc(), parties, 100, "never 0", bad);
}

// A client, and an administrator who drains and polls, with a question, as JSON objects.
#[test]
fn json(rt: HostRuntime) {
    let given = Given {
        form: Form::Json,
        bounds: ENOUGH,
        setup: "",
        parties: &[
            r#","parties":{"clients":[{"steps":["#,
            MOVE,
            r#"]}],"admins":[{"steps":["#,
            DRAIN,
            r#"]}]},"never":[{"name":"a wait","that":{"command":"A0","waits-for":"x"}}]"#,
        ],
        text: concat!(
            r#"{"entry":"x","what":"accepted","steps":1}"#,
            "\n",
            r#"{"entry":"x","what":"completed 01","steps":3}"#,
            "\n",
            r#"{"command":"A0","what":"ended 0","steps":1}"#,
            "\n",
            r#"{"command":"A0","what":"active","steps":2}"#,
            "\n",
            r#"{"command":"A0","what":"waits for x","steps":2}"#,
            "\n",
            r#"{"command":"A1","what":"nothing","steps":2}"#,
            "\n",
            r#"{"command":"A1","what":"active","steps":3}"#,
            "\n",
            r#"{"command":"A1","what":"finished","steps":5}"#,
            "\n",
            r#"{"end":"stuck at A1","steps":4}"#,
            "\n",
            r#"{"end":"all through","steps":5}"#,
            "\n",
            r#"{"question":"a wait","kind":"never","verdict":"broken","steps":2}"#,
            "\n",
            r#"{"states":12,"steps":43,"depth":5,"complete":true}"#,
            "\n",
        ),
        fault: Some(ScenarioFault::Broken(0)),
    };
    gives(&rt, rt.alloc(), &given);
}

// The same of a search that met its bounds.
#[test]
fn bounded_json(rt: HostRuntime) {
    let given = Given {
        form: Form::Json,
        bounds: Bounds {
            states: 2,
            ..ENOUGH
        },
        setup: "",
        parties: &[
            r#","parties":{"clients":[{"steps":["#,
            MOVE,
            r#"]}]},"never":[{"that":{"entry":"x","is":"aborted"}}],"#,
            r#""sometimes":[{"that":{"entry":"x","is":"failed"}}]"#,
        ],
        text: concat!(
            r#"{"entry":"x","what":"accepted","steps":1}"#,
            "\n",
            r#"{"question":"0","kind":"never","verdict":"kept so far"}"#,
            "\n",
            r#"{"question":"1","kind":"sometimes","verdict":"not seen so far"}"#,
            "\n",
            r#"{"states":2,"steps":4,"depth":1,"complete":false}"#,
            "\n",
        ),
        fault: Some(ScenarioFault::Incomplete),
    };
    gives(&rt, rt.alloc(), &given);
}

// A document with this set-up and these parties gives no text, and this fault.
fn has(
    rt: &impl Abort,
    alloc: Global,
    setup: &'static str,
    parties: &'static [&'static str],
    fault: ScenarioFault,
) {
    let given = Given {
        form: Form::Table,
        bounds: ENOUGH,
        setup,
        parties,
        text: "",
        fault: Some(fault),
    };
    gives(rt, alloc, &given);
}

#[test]
fn an_entry_that_came_in(rt: HostRuntime) {
    has(
        &rt,
        rt.alloc(),
        SUBMITTED,
        ONE_CLIENT,
        ScenarioFault::BadSetup,
    );
}

#[test]
fn parties_at_fault(rt: HostRuntime) {
    has(&rt, rt.alloc(), "", &[], ScenarioFault::NoParties);
    has(
        &rt,
        rt.alloc(),
        "",
        &[r#","parties":[]"#],
        ScenarioFault::BadParties,
    );
    let second = &[
        r#","parties":{"clients":[{"steps":["#,
        MOVE,
        r#"]}],"admins":[{}]}"#,
    ];
    has(&rt, rt.alloc(), "", second, ScenarioFault::BadParty(1));
    has(
        &rt,
        rt.alloc(),
        SUBMITTED,
        second,
        ScenarioFault::BadParty(1),
    );
}

// What a plain run is told is a fault without a text.
#[test]
fn a_document_at_fault(rt: HostRuntime) {
    let exploring = Exploring {
        form: Form::Json,
        bounds: ENOUGH,
    };
    let Err(fault) = searched(&rt, rt.alloc(), exploring, &[HEAD, "1]}"]) else {
        panic!(&rt; "there is no fault");
    };
    assert_eq!(&rt; fault, ScenarioFault::BadStep(0));
}

// Questions come after the parties, and before the set-up.
#[test]
fn questions_at_fault(rt: HostRuntime) {
    let second = &[
        r#","parties":{"clients":[{"steps":["#,
        MOVE,
        r#"]}]},"never":[{"that":{"entry":"x","is":"aborted"}},"#,
        r#"{"that":{"entry":"y","is":"aborted"}}]"#,
    ];
    let fault = ScenarioFault::BadQuestion(1);
    has(&rt, rt.alloc(), SUBMITTED, second, fault);
    let parties = &[r#","parties":[],"never":5"#];
    has(&rt, rt.alloc(), "", parties, ScenarioFault::BadParties);
}

// ---- random walks

// Walks of the parties of a document give this text and this fault.
fn walks_give(
    rt: &impl Abort,
    alloc: Global,
    sampling: Sampling,
    parties: &'static [&'static str],
    text: &'static str,
    fault: ScenarioFault,
) {
    let mut parts = Vec::new(alloc);
    let _ = parts.extend_from_slice(&[HEAD, ENABLED, "]"]);
    let _ = parts.extend_from_slice(parties);
    let _ = parts.push("}");
    let document = match joined(alloc, parts.as_slice()) {
        Ok(document) => document,
        Err(_) => panic!(rt; "there is no memory"),
    };
    match sampling.render(alloc, document.as_bytes()) {
        Ok(rendering) => {
            assert_eq!(rt; rendering.text.as_str(), text);
            assert_eq!(rt; rendering.fault, Some(fault));
        }
        Err(_) => panic!(rt; "there is no text"),
    }
}

// So many walks with seed 5.
fn walks_of(form: Form, count: u32) -> Sampling {
    let walks = Walks {
        count,
        seed: 5,
        shard: 0,
        shards: 1,
    };
    Sampling { form, walks }
}

// A client alone has one order of steps: each walk makes them.
#[test]
fn walks_of_one_client(rt: HostRuntime) {
    let alloc = rt.alloc();
    let ten = concat!(
        "x: accepted [1], completed 01 [3]\n",
        "10 walks, 30 steps, depth 3, sampled\n",
    );
    let table = walks_of(Form::Table, 10);
    walks_give(
        &rt,
        alloc,
        table,
        ONE_CLIENT,
        ten,
        ScenarioFault::Incomplete,
    );
    let one = concat!(
        "x: accepted [1], completed 01 [3]\n",
        "1 walk, 3 steps, depth 3, sampled\n",
    );
    let table = walks_of(Form::Table, 1);
    walks_give(
        &rt,
        alloc,
        table,
        ONE_CLIENT,
        one,
        ScenarioFault::Incomplete,
    );
    let none = "x: nothing\n0 walks, 0 steps, depth 0, sampled\n";
    let table = walks_of(Form::Table, 0);
    walks_give(
        &rt,
        alloc,
        table,
        ONE_CLIENT,
        none,
        ScenarioFault::Incomplete,
    );
    let faulty = walks_of(Form::Json, 1);
    walks_give(&rt, alloc, faulty, &[], "", ScenarioFault::NoParties);
}

// What walks say of questions, as lines and as JSON objects.
#[test]
fn questions_of_walks(rt: HostRuntime) {
    let alloc = rt.alloc();
    let parties = &[
        r#","parties":{"clients":[{"steps":["#,
        MOVE,
        r#"]}]},"never":[{"that":{"entry":"x","is":"aborted"}},"#,
        r#"{"name":"x ends","that":{"any":[{"entry":"x","is":"completed"}]}}],"#,
        r#""sometimes":[{"that":{"entry":"x","is":"failed"}}]"#,
    ];
    let lines = concat!(
        "x: accepted [1], completed 01 [3]\n",
        "never 0: kept so far\n",
        "never x ends: broken [3]\n",
        "sometimes 2: not seen so far\n",
        "2 walks, 6 steps, depth 3, sampled\n",
    );
    let table = walks_of(Form::Table, 2);
    walks_give(&rt, alloc, table, parties, lines, ScenarioFault::Broken(1));
    let objects = concat!(
        r#"{"entry":"x","what":"accepted","steps":1}"#,
        "\n",
        r#"{"entry":"x","what":"completed 01","steps":3}"#,
        "\n",
        r#"{"question":"0","kind":"never","verdict":"kept so far"}"#,
        "\n",
        r#"{"question":"x ends","kind":"never","verdict":"broken","steps":3}"#,
        "\n",
        r#"{"question":"2","kind":"sometimes","verdict":"not seen so far"}"#,
        "\n",
        r#"{"walks":2,"steps":6,"depth":3,"complete":false}"#,
        "\n",
    );
    let json = walks_of(Form::Json, 2);
    walks_give(&rt, alloc, json, parties, objects, ScenarioFault::Broken(1));
}
