//! Which bytes, and which paths, can be read as they are.
ghost use Rattle.std.specs.Prelude.{◌≡◌};
ghost use Rattle.bolt_tree.specs.Paths.{path_of};
ghost use Rattle.bolt_text.specs.{Forms.is_printable, NamedPaths.is_readable_path, NamedPaths.is_readable_part};

/// Whether each byte is a printable ASCII character.
pub(crate) fn can_be_printed(bytes: &[u8]) -> bool
    ensures { result ≡ is_printable bytes.now }
{
    bytes.iter().all(|byte| *byte >= b' ' && *byte <= b'~')
}

/// Whether a path has parts, and each of them can be read.
pub(crate) fn is_readable_path(path: &[&[u8]]) -> bool
    ensures { result ≡ is_readable_path (path_of path.now) }
{
    !path.is_empty() && path.iter().all(|part| is_readable_part(part))
}

/// Whether a part of a path has bytes, and all of them can be printed.
fn is_readable_part(part: &[u8]) -> bool
    ensures { result ≡ is_readable_part part.now }
{
    !part.is_empty() && can_be_printed(part)
}
