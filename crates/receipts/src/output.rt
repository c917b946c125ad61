// An output, into which bytes are put one piece behind the other.
ghost use Rattle.std.specs.Prelude.{◌≡◌, ◌+◌, ◌≤◌, length};
ghost use Rattle.receipts.specs.Notices.{field};
ghost use Rattle.receipts.specs.Output.{Puts};

use itoa::Buffer;

// The bytes lent, and the place behind those put so far.
#[derive(Drop)]
pub(crate) struct Output<'a> {
    bytes: &'a mut [u8],
    at: usize,
}

impl<'a> Output<'a> {
    pub(crate) fn new(bytes: &'a mut [u8]) -> Output<'a>
        ensures same_output { result.bytes.ghost_name ≡ bytes.entry.ghost_name }
        ensures untouched { result.bytes.now ≡ bytes.old }
        ensures start { result.at ≡ 0 }
    {
        Output { bytes, at: 0 }
    }

    fn put(&mut self, text: &[u8])
        requires { self.old.at + length text.now ≤ length self.old.bytes.now }
        ensures { Puts self.old text.now self.new }
    {
        let end = self.at + text.len();
        self.bytes[self.at..end].copy_from_slice(text);
        self.at = end;
    }

    // Puts a number in decimal, and the byte that ends it.
    pub(crate) fn put_field(&mut self, n: u32, end: u8)
        requires { self.old.at + length (field n end) ≤ length self.old.bytes.now }
        ensures { Puts self.old (field n end) self.new }
    {
        self.put(Buffer::new().format(n).as_bytes());
        self.put(&[end]);
    }
}
