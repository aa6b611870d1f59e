// A reader over a lent envelope: the envelope and a place in it, held together. Of a string it reads the head alone.
#![tactic(auto)]

ghost use Rattle.std.specs.Prelude.{◌≡◌, ◌-◌, length};
ghost use Rattle.rules.specs.Cbor.{head};
ghost use Rattle.cbor_reader.specs.Read.{read_of, head_here, moved};

use cbor_heads::Head;
use rules::answers::Fault;

// It moves only by reading a head. A place past the end is 65 there, with nothing left.
#[derive(Drop)]
pub struct Reader<'a> {
    envelope: &'a [u8],
    at: usize,
}

impl<'a> Reader<'a> {
    // A reader at a place of an envelope.
    pub fn new(envelope: &'a [u8], at: usize) -> Reader<'a>
        ensures { result ≡ record { envelope = envelope.entry; at = at } }
    {
        Reader { envelope, at }
    }

    // The reader's place.
    pub fn place(&self) -> usize
        ensures { result ≡ self.now.at }
    {
        self.at
    }

    // How many bytes are left for it.
    pub fn left(&self) -> usize
        ensures { result ≡ length self.now.envelope.now - self.now.at }
    {
        self.envelope.len().saturating_sub(self.at)
    }

    // Reads one head, and moves the reader to the place after it; or refuses it with 65, and the reader is as it was.
    pub fn read_head(&mut self) -> Result<Head, Fault>
        ensures { (result ≡ read_of (head_here self.old)) × (self.new ≡ moved self.old (head_here self.old)) }
    {
        let h = cbor_heads::read_head(self.envelope, self.envelope.len(), self.at)?;
        self.at = h.next;
        Ok(h)
    }
}

// The same for a caller that has no reader: one head at a place of an envelope.
pub fn head_at(envelope: &[u8], at: usize) -> Result<Head, Fault>
    ensures { result ≡ read_of (head envelope.now (length envelope.now) at) }
{
    Reader::new(envelope, at).read_head()
}

// How many bytes of an envelope are left from a place on.
pub fn left_at(envelope: &[u8], at: usize) -> usize
    ensures { result ≡ length envelope.now - at }
{
    Reader::new(envelope, at).left()
}
