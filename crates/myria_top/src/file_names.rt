//! The names of the files that a script needs.
ghost use Rattle.std.specs.Prelude.{◌≡◌, IfOk};
ghost use Rattle.myria_top.specs.FileNames as spec;

use rel_base::{Duplicate, Key, Memory, Text};
use std::alloc::Global;

/// Whether the key is that of a loaded file.
pub fn is_loaded(key: &Key) -> bool
    ensures { result ≡ spec.is_loaded key.now }
{
    key.user.as_str().is_empty() && key.program.as_str().is_empty()
}

/// The name under which the file of a key is fetched.
pub fn file_name(alloc: Global, key: &Key) -> Result<Text, Memory>
    ensures { IfOk result (λ name. name ≡ spec.file_name_of key.now) }
{
    if is_loaded(key) {
        key.name.copy(alloc)
    } else {
        key.shelf_name(alloc)
    }
}
