// What bytes begin with, and bytes put in at a place.
ghost use Rattle.std.specs.Prelude.{◌≡◌, ◌+◌, ◌≤◌, option_map, length};
ghost use Rattle.commands.specs.Bytes.{after_text, put_in};

// What follows a text that some bytes begin with.
pub(crate) fn after_text<'a>(text: &[u8], bytes: &'a [u8]) -> Option<&'a [u8]>
    ensures { option_map (λ rest. rest.now) result ≡ after_text text.now bytes.now }
{
    bytes.strip_prefix(text)
}

// Puts a text in at a place, and answers where it ends.
pub(crate) fn put(text: &[u8], out: &mut [u8], at: usize) -> usize
    requires { at + length text.now ≤ length out.old }
    ensures out_after { out.new ≡ put_in text.now at out.old }
    ensures value { result ≡ at + length text.now }
{
    let end = at + text.len();
    out[at..end].copy_from_slice(text);
    end
}
