//! Names.

use fab_base::Text;

/// A name, and the place of its first byte in the source.
#[derive(Debug)]
pub struct Name {
    pub text: Text,
    pub at: u32,
}

impl Drop for Name {
    fn drop(self) {
        let Name { text, at } = self;
    }
}
