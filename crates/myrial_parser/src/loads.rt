//! Files without a header: `load`, the name of a file, and its form.
use myrial_ast::LoadForm;
use rel_base::Text;

/// A file without a header.
#[derive(Drop)]
pub struct Load {
    /// Its name.
    pub file: Text,
    /// How it is read.
    pub form: LoadForm,
}
