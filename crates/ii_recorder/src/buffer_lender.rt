ghost use Rattle.std.specs.Prelude.{◌≡◌, []};

use std::alloc::Global;

/// Holds two buffers that are reused, so that they grow only once. They are empty when they are borrowed.
pub struct BufferLender {
    buffer_u8: Vec<u8>,
    buffer_u32: Vec<u32>,
}

// A drop has to be a call.
impl Drop for BufferLender {
    fn drop(self) {
        let BufferLender {
            buffer_u8: _,
            buffer_u32: _,
        } = self;
    }
}

impl BufferLender {
    /// Creates a lender whose buffers have no capacity yet.
    pub fn new(alloc: Global) -> BufferLender {
        BufferLender {
            buffer_u8: Vec::new(alloc),
            buffer_u32: Vec::new(alloc),
        }
    }

    /// Borrows the buffer of bytes.
    pub fn lend_u8(&mut self) -> &mut Vec<u8>
        ensures { result.now.items ≡ [] }
    {
        self.buffer_u8.clear();
        &mut self.buffer_u8
    }

    /// Borrows both buffers.
    pub fn lend_all(&mut self) -> (&mut Vec<u8>, &mut Vec<u32>)
        ensures bytes { result.0.now.items ≡ [] }
        ensures numbers { result.1.now.items ≡ [] }
    {
        self.buffer_u8.clear();
        self.buffer_u32.clear();
        (&mut self.buffer_u8, &mut self.buffer_u32)
    }
}
