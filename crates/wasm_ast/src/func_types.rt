//! Types of functions.

ghost use Rattle.std.specs.Prelude.{◌≡◌};

use crate::val_types::ValType;
use sqlite_items::Items;

/// The type of a function. WebAssembly 1.0, 2.3.3.
#[derive(Debug, Drop)]
pub struct FuncType {
    pub params: Items<ValType>,
    pub results: Items<ValType>,
}

impl FuncType {
    pub fn new(params: Vec<ValType>, results: Vec<ValType>) -> FuncType
        ensures { result ≡ record { params = params.items; results = results.items } }
    {
        FuncType {
            params: Items::from_vec(params),
            results: Items::from_vec(results),
        }
    }

    pub fn params(&self) -> &[ValType]
        ensures { result.now ≡ self.now.params }
    {
        self.params.as_slice()
    }

    pub fn results(&self) -> &[ValType]
        ensures { result.now ≡ self.now.results }
    {
        self.results.as_slice()
    }
}
