//! A document in the friendly form in, what is made of its strict form out.

ghost use Rattle.dsa_expand.specs.Friendly.{IsMadeOfFriendly};

use crate::expansion::Expansion;
use dsa_scenario::{Render, Rendered};
use std::alloc::Global;

/// A way to make a text of a document in the friendly form: the inner one makes it of the strict
/// form.
#[derive(Clone, Copy, Debug, Drop, PartialEq, Eq)]
pub struct Friendly<R> {
    pub inner: R,
}

impl<R: Render> Render for Friendly<R> {
    ghost is_rendering = { λ friendly bytes fault text.
        IsMadeOfFriendly (R.is_rendering friendly.inner) bytes fault text };

    fn render(&self, alloc: Global, bytes: &[u8]) -> Rendered {
        let expanded = Expansion.render(alloc, bytes)?;
        match expanded.fault {
            Some(_) => Ok(expanded),
            None => self.inner.render(alloc, expanded.text.as_bytes()),
        }
    }
}
