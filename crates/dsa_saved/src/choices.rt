//! What was free in a step, as two words, and as bytes.

ghost use Rattle.std.specs.Prelude.{◌≡◌};
ghost use Rattle.dsa_book.specs.Choice.{choice_of};
ghost use Rattle.dsa_saved.specs.Words.{words_of};
ghost use Rattle.dsa_saved.specs.Format.{choice_words, choice_bytes};
ghost use Rattle.dsa_saved.specs.Said.{choice_of_words};

use crate::words::bytes_of;
use dsa_book::{DispatchAnswer, FetchAnswer, Reply, SubmitAnswer};

/// What was free in a step with this reply: the cell of an entry that came in, or the queue that
/// one was taken from.
fn choice_words(reply: &Reply) -> [u32; 2]
    ensures { result ≡ choice_words (choice_of reply.now) }
{
    match reply {
        Reply::Submit(SubmitAnswer::Accepted(ticket))
        | Reply::Fetch(FetchAnswer::Fetched(ticket)) => [1, ticket.cell.0],
        Reply::Dispatch(DispatchAnswer::Taken { queue, .. }) => [2, u32::from(*queue)],
        _ => [0, 0],
    }
}

/// The same as bytes.
pub(crate) fn choice_bytes(reply: &Reply) -> [u8; 8]
    ensures bytes { result ≡ choice_bytes (choice_of reply.now) }
    ensures read { choice_of_words (words_of 2 result) ≡ choice_of reply.now }
{
    let words = choice_words(reply);
    bytes_of(&words)
}
