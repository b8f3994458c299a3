//! Which of all walks are made.

ghost use Rattle.std.specs.Prelude.{◌≡◌, ◌==◌, ◌<◌, IfSome, length, position};
ghost use Rattle.dsa_cli.specs.Shards.{shard_between, shard_of_numbers, shard_of_text, whole_shard};

use dsa_draw::digits_number;

/// The walks whose numbers leave `number` when they are divided by `count`.
#[derive(Clone, Copy, Debug, PartialEq, Eq)]
pub struct Shard {
    pub number: u32,
    pub count: u32,
}

fn shard_between(number: u32, count: u32) -> Option<Shard>
    ensures { result ≡ shard_between number count }
{
    if number < count {
        Some(Shard { number, count })
    } else {
        None
    }
}

fn shard_of_numbers(number: Option<u32>, count: Option<u32>) -> Option<Shard>
    ensures { result ≡ shard_of_numbers number count }
{
    shard_between(number?, count?)
}

fn place_of_slash(text: &[u8]) -> Option<usize>
    ensures place { result ≡ position (λ byte. byte == 47) text.now }
    ensures bound { IfSome result (λ place. place < length text.now) }
{
    text.iter().position(|byte| *byte == b'/')
}

impl Shard {
    /// All walks.
    pub fn whole() -> Shard
        ensures { result ≡ whole_shard }
    {
        Shard {
            number: 0,
            count: 1,
        }
    }

    /// The shard `I/K`; `None` where the text is none, or I is not below K.
    pub fn parse(text: &str) -> Option<Shard>
        ensures { result ≡ shard_of_text text.now }
    {
        let bytes = text.as_bytes();
        let place = place_of_slash(bytes)?;
        shard_of_numbers(
            digits_number(&bytes[..place]),
            digits_number(&bytes[place + 1..]),
        )
    }
}
