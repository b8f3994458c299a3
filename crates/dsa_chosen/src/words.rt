//! Words with which answers begin.

ghost use Rattle.std.specs.Prelude.{◌≡◌, None, Some, IfErr, IfOk, bytes_eq, option_map};
ghost use Rattle.std.specs.List.{list_any};
ghost use Rattle.dsa_chosen.specs.Words.{first_word, is_answer_word, is_answered, unknown_word, words_in};

use dsa_scenario::{Record, add_answer};
use std::alloc::{AllocError, Global};

/// Words with which answers begin, with commas between them, such as `retry,idle`.
#[derive(Clone, Copy, Debug, PartialEq, Eq)]
pub struct AnswerWords<'a> {
    text: &'a str,
}

/// Whether answers begin with this word.
pub fn is_answer_word(word: &str) -> bool
    ensures { result ≡ is_answer_word word.now }
{
    matches!(
        word,
        "accepted"
            | "retry"
            | "dropped"
            | "taken"
            | "idle"
            | "fetched"
            | "no-batch"
            | "all-fetched"
            | "started"
            | "fence-wait"
            | "no-buffers"
            | "abandoned"
            | "done"
            | "not-ready"
            | "gone"
            | "ended"
            | "active"
            | "refused"
            | "finished"
            | "nothing"
            | "written"
            | "cleared"
            | "full"
    )
}

// The first of the words with which no answer begins.
fn unknown_word(words: &str) -> Option<&str>
    ensures { option_map (λ word. word.now) result ≡ unknown_word words.now }
{
    words.split(',').find(|word| !is_answer_word(word))
}

// What stands before the first space.
fn first_word(text: &str) -> &str
    ensures { result.now ≡ first_word text.now }
{
    match text.split_once(' ') {
        Some((word, _rest)) => word,
        None => text,
    }
}

impl<'a> AnswerWords<'a> {
    /// These words, or the first of them with which no answer begins.
    pub fn parse(words: &'a str) -> Result<AnswerWords<'a>, &'a str>
        ensures words { IfOk result (λ answers. answers.text.now ≡ words.now) }
        ensures known { IfOk result (λ answers. unknown_word words.now ≡ None) }
        ensures unknown { IfErr result (λ word. unknown_word words.now ≡ Some word.now) }
    {
        match unknown_word(words) {
            None => Ok(AnswerWords { text: words }),
            Some(word) => Err(word),
        }
    }

    fn has(&self, word: &str) -> bool
        ensures { result ≡ list_any (λ own. bytes_eq own word.now) (words_in self.now.text.now) }
    {
        self.text.split(',').any(|own| own == word)
    }

    /// Whether the answer begins with one of these words.
    pub fn is_answered(&self, alloc: Global, entry: &Record) -> Result<bool, AllocError>
        ensures { IfOk result (λ is. is ≡ is_answered self.now.text.now entry.now) }
    {
        let mut answer = String::new(alloc);
        add_answer(&mut answer, entry)?;
        Ok(self.has(first_word(&answer)))
    }
}
