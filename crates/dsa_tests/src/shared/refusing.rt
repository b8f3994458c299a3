//! An allocator that grants some requests for memory and refuses those that follow.

use std::alloc::{AllocError, Allocator};
use std::sync::atomic::{AtomicU32, Ordering};

/// Passes so many requests on, and refuses all others. It is lent to what allocates.
#[derive(Drop)]
pub struct Refusing<B: Allocator> {
    inner: B,
    meter: Meter,
}

// Counts requests against the number that are granted.
#[derive(Drop)]
pub struct Meter {
    asked: AtomicU32,
    granted: u32,
}

impl Meter {
    fn refuses(&self) -> bool {
        self.asked.fetch_add(1, Ordering::SeqCst) >= self.granted
    }
}

impl<B: Allocator> Refusing<B> {
    pub fn new(inner: B, granted: u32) -> Refusing<B> {
        Refusing {
            inner,
            meter: Meter {
                asked: AtomicU32::new(0),
                granted,
            },
        }
    }

    /// How many requests have come, those that were refused included.
    pub fn asked(&self) -> u32 {
        self.meter.asked.load(Ordering::SeqCst)
    }
}

unsafe impl<B: Allocator> Allocator for Refusing<B> {
    ghost dealloc_token = { λ heap ty ptr. B.dealloc_token heap.inner ty ptr };

    fn allocate(&self, size: usize, align: usize) -> Result<*mut u8, AllocError> {
        if self.meter.refuses() {
            return Err(AllocError);
        }
        self.inner.allocate(size, align)
    }

    unsafe fn deallocate(&self, ptr: *mut u8, size: usize, align: usize) {
        self.inner.deallocate(ptr, size, align);
    }
}
