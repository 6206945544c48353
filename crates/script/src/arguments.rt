// What the program's arguments ask for.
ghost use Rattle.std.specs.Prelude.{◌≡◌, bytes_eq};
ghost use Rattle.script.specs.Arguments.{is_file, asked_of};

#[derive(Clone, Copy)]
pub enum Asked {
    Script,
    Archive,
    Records,
    Help,
    Version,
    Other,
}

fn is(argument: &[u8], word: &str) -> bool
    ensures { result ≡ bytes_eq argument.now word.now }
{
    argument == word.as_bytes()
}

// A FILE begins with no dash, so that an option that is mistyped makes no file.
fn is_file(argument: &[u8]) -> bool
    ensures { result ≡ is_file argument.now }
{
    argument.first() != Some(&b'-')
}

// What the arguments ask for: how many there are, and the first two of them, each empty where there is none.
pub(crate) fn asked_for(count: usize, first: &[u8], second: &[u8]) -> Asked
    ensures { result ≡ asked_of count first.now second.now }
{
    if count == 0 {
        Asked::Script
    } else if is(first, "--help") | is(second, "--help") {
        Asked::Help
    } else if is(first, "--version") | is(second, "--version") {
        Asked::Version
    } else if (count == 2) & is(first, "archive") & is_file(second) {
        Asked::Archive
    } else if (count == 2) & is(first, "records") & is_file(second) {
        Asked::Records
    } else {
        Asked::Other
    }
}
