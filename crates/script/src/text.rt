// Text in a fixed room.
ghost use Rattle.std.specs.Prelude.{◌≡◌, ◌-◌, ◌≤◌, length, take};
ghost use Rattle.script.specs.Puts.{put_text, put_end};

use std::fmt;

// What is put in goes behind what is there, as far as there is room.
#[derive(Drop)]
pub struct Text<const N: usize> {
    pub bytes: [u8; N],
    pub len: usize,
    ghost within: { len ≤ length bytes },
}

impl<const N: usize> Text<N> {
    pub(crate) fn new() -> Text<N>
        ensures { result.len ≡ 0 }
    {
        Text {
            bytes: [0; N],
            len: 0,
        }
    }

    pub(crate) fn as_bytes(&self) -> &[u8]
        ensures { result.now ≡ take self.now.len self.now.bytes }
    {
        &self.bytes[..self.len]
    }

    pub(crate) fn room(&self) -> usize
        ensures room { result ≡ length self.now.bytes - self.now.len }
        ensures whole { length self.now.bytes ≡ N }
    {
        N - self.len
    }

    #[tactic(auto, unfolding(crate::specs::Puts::put_text, crate::specs::Puts::put_end), using(crate::proofs::Puts::put_is))]
    pub(crate) fn put(&mut self, text: &[u8])
        ensures text { self.new.bytes ≡ put_text text.now self.old.bytes self.old.len }
        ensures end { self.new.len ≡ put_end text.now self.old.bytes self.old.len }
    {
        let count = text.len().min(self.room());
        let end = self.len + count;
        let bytes = &mut self.bytes[..];
        bytes[self.len..end].copy_from_slice(&text[..count]);
        self.len = end;
    }
}

impl<const N: usize> fmt::Write for Text<N> {
    ghost write_str_gives = { λ t text t'. t'.bytes ≡ put_text text t.bytes t.len };

    fn write_str(&mut self, text: &str) -> fmt::Result {
        self.put(text.as_bytes());
        Ok(())
    }
}
