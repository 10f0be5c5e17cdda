//! Bodies of functions.

ghost use Rattle.std.specs.Prelude.{◌≡◌};

use crate::trees::Seq;
use crate::val_types::ValType;
use sqlite_items::Items;

/// The body of a function: the types of the locals that it declares, and its code. WebAssembly 1.0, 2.5.3.
#[derive(Debug, Drop)]
pub struct Body {
    pub locals: Items<ValType>,
    pub code: Seq,
}

impl Body {
    pub fn new(locals: Vec<ValType>, code: Seq) -> Body
        ensures { result ≡ record { locals = locals.items; code = code } }
    {
        Body {
            locals: Items::from_vec(locals),
            code,
        }
    }

    pub fn locals(&self) -> &[ValType]
        ensures { result.now ≡ self.now.locals }
    {
        self.locals.as_slice()
    }

    pub fn code(&self) -> &Seq
        ensures { result.now ≡ self.now.code }
    {
        &self.code
    }
}
