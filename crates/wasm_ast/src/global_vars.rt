//! Globals.

ghost use Rattle.std.specs.Prelude.{◌≡◌};

use crate::trees::Seq;
use crate::val_types::ValType;

/// A global: its type, whether it can be set, and the expression of its first value. WebAssembly 1.0, 2.5.6.
#[derive(Debug, Drop)]
pub struct GlobalVar {
    pub val_type: ValType,
    pub mutable: bool,
    pub initial: Seq,
}

impl GlobalVar {
    pub fn new(val_type: ValType, mutable: bool, initial: Seq) -> GlobalVar
        ensures { result ≡ record { val_type = val_type; mutable = mutable; initial = initial } }
    {
        GlobalVar {
            val_type,
            mutable,
            initial,
        }
    }

    pub fn val_type(&self) -> ValType
        ensures { result ≡ self.now.val_type }
    {
        self.val_type
    }

    pub fn mutable(&self) -> bool
        ensures { result ≡ self.now.mutable }
    {
        self.mutable
    }

    pub fn initial(&self) -> &Seq
        ensures { result.now ≡ self.now.initial }
    {
        &self.initial
    }
}
