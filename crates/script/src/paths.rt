// Paths, which the library takes as text.
ghost use Rattle.std.specs.Prelude.{◌≡◌, MatchResult};
ghost use Rattle.std.specs.IoError.{error_kind};
ghost use Rattle.script.specs.Paths.{FolderOf};

use std::fs::File;
use std::io;
use std::io::ErrorKind;

// Room for any path.
pub(crate) const PATH_ROOM: usize = 4096;

// A path that is no text names no file that the library can reach.
pub(crate) fn text_of(path: &[u8]) -> io::Result<&str>
    ensures { MatchResult result (λ text. text.now ≡ path.now) (λ error. error_kind error ≡ ErrorKind.InvalidFilename) }
{
    std::str::from_utf8(path).map_err(|_| io::Error::from(ErrorKind::InvalidFilename))
}

// The folder of a path: all up to its last slash, and where it has none, the folder that the program was started in.
pub(crate) fn folder_of(path: &[u8]) -> &[u8]
    ensures { FolderOf path.now result.now }
{
    match memchr::memrchr(b'/', path) {
        Some(last) => &path[..last + 1],
        None => b".",
    }
}

// Waits until a folder, or a file, has reached its device.
pub(crate) fn sync(rt: &HostRuntime, path: &[u8]) -> io::Result<()> {
    File::open(rt, text_of(path)?)?.sync_all()
}
