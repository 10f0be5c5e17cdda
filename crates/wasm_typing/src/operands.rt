//! The types of the operands within one block, as far as they are known.

ghost use Rattle.std.specs.Prelude.{◌≡◌, ◌↔◌, [], ◌∷◌, ◌++◌, OnOk, IsTrue, false, true, reverse, MatchOption};
ghost use Rattle.wasm_ast.specs.declared.val_types.ValType.{ValType};
ghost use Rattle.wasm_ast.specs.Typing.{results, Changes};
ghost use Rattle.wasm_typing.specs.Operands.{Stand, Image, Turns, Splits, NoTop, IsBoth};
ghost use Rattle.wasm_typing.specs.Operands.{Takes, PutsOn, TakesOne, Anything, Jumps, Chooses};

use std::alloc::{AllocError, Global};
use wasm_ast::{BlockType, FuncType, ValType};
use wasm_stack::Stack;

/// What is known of the operands, the topmost last put, and whether anything may stand below them.
#[derive(Drop)]
pub struct Operands {
    pub kept: Stack<Option<ValType>>,
    pub anything: bool,
}

impl Operands {
    /// None.
    pub fn new(alloc: Global) -> Operands
        ensures { result ≡ record { kept = []; anything = false } }
    {
        Operands {
            kept: Stack::new(alloc),
            anything: false,
        }
    }

    /// Takes one operand, if there may be one, and tells what is known of it.
    fn take_one(&mut self) -> Option<Option<ValType>>
        ensures { MatchOption result (NoTop (Stand self.old)) (λ known. Splits (Stand self.old) (Stand self.new) known) }
    {
        match self.kept.pop() {
            Some(known) => Some(known),
            None => { if self.anything { Some(None) } else { None } }
        }
    }

    /// Takes one operand of any type.
    pub fn take_any(&mut self) -> bool
        ensures { Image TakesOne (Stand self.old) (Stand self.new) result }
    {
        match self.take_one() {
            Some(_) => true,
            None => false,
        }
    }

    /// Takes one operand of this type.
    pub fn take(&mut self, wanted: ValType) -> bool
        ensures { Image (Takes (wanted ∷ [])) (Stand self.old) (Stand self.new) result }
    {
        match self.take_one() {
            Some(Some(found)) => found == wanted,
            Some(None) => true,
            None => false,
        }
    }

    /// Takes what a block of this type leaves.
    pub fn take_block(&mut self, wanted: BlockType) -> bool
        ensures { Image (Takes (results wanted)) (Stand self.old) (Stand self.new) result }
    {
        match wanted {
            Some(val_type) => self.take(val_type),
            None => true,
        }
    }

    /// Takes these, the last of them from the top.
    pub fn take_all(&mut self, wanted: &[ValType]) -> bool
        ensures { Image (Takes (reverse wanted.now)) (Stand self.old) (Stand self.new) result }
    {
        for val_type in wanted.iter().rev() {
            if !self.take(*val_type) {
                return false;
            }
        }
        true
    }

    /// Takes what a branch of this block type takes; what is left is anything.
    pub fn jump(&mut self, wanted: BlockType) -> bool
        ensures { Image (Jumps (results wanted)) (Stand self.old) (Stand self.new) result }
    {
        if !self.take_block(wanted) {
            return false;
        }
        self.forget();
        true
    }

    /// Takes these, the last of them from the top, and puts what a block of this type leaves.
    pub fn exchange(&mut self, wanted: &[ValType], left: BlockType) -> Result<bool, AllocError>
        ensures { Turns (Changes (reverse wanted.now) (results left)) self.old self.new result }
    {
        if !self.take_all(wanted) {
            return Ok(false);
        }
        self.leave_block(left)?;
        Ok(true)
    }

    /// Takes what a branch of this block type takes, and puts it back.
    pub fn pass(&mut self, wanted: BlockType) -> Result<bool, AllocError>
        ensures { Turns (Changes (results wanted) (results wanted)) self.old self.new result }
    {
        if !self.take_block(wanted) {
            return Ok(false);
        }
        self.leave_block(wanted)?;
        Ok(true)
    }

    /// Takes the parameters of a function of this type, the last of them from the top, and puts its results.
    pub fn apply(&mut self, signature: &FuncType) -> Result<bool, AllocError>
        ensures { Turns (Changes (reverse signature.now.params) signature.now.results) self.old self.new result }
    {
        if !self.take_all(signature.params()) {
            return Ok(false);
        }
        self.leave_all(signature.results())?;
        Ok(true)
    }

    /// Takes two of one type, and puts one of them back.
    pub fn choose(&mut self) -> Result<bool, AllocError>
        ensures { Turns Chooses self.old self.new result }
    {
        let Some(second) = self.take_one() else {
            return Ok(false);
        };
        let Some(first) = self.take_one() else {
            return Ok(false);
        };
        let Some(known) = both(first, second) else {
            return Ok(false);
        };
        self.put(known)?;
        Ok(true)
    }

    /// Forgets all that is known: anything may be there.
    pub fn forget(&mut self)
        ensures { Image Anything (Stand self.old) (Stand self.new) true }
    {
        self.kept.truncate(0);
        self.anything = true;
    }

    /// Puts one on top of which this is known.
    pub fn put(&mut self, known: Option<ValType>) -> Result<(), AllocError>
        ensures { OnOk result (Splits (Stand self.new) (Stand self.old) known × (Stand self.new [] → ⊥)) }
    {
        self.kept.push(known)
    }

    /// Puts one of this type on top.
    pub fn leave(&mut self, val_type: ValType) -> Result<(), AllocError>
        ensures { OnOk result (Image (PutsOn (val_type ∷ [])) (Stand self.old) (Stand self.new) true) }
    {
        self.put(Some(val_type))
    }

    /// Puts these, the first of them on top.
    pub fn leave_all(&mut self, val_types: &[ValType]) -> Result<(), AllocError>
        ensures { OnOk result (Image (PutsOn val_types.now) (Stand self.old) (Stand self.new) true) }
    {
        for val_type in val_types.iter().rev() {
            self.leave(*val_type)?;
        }
        Ok(())
    }

    /// Puts what a block of this type leaves.
    pub fn leave_block(&mut self, block_type: BlockType) -> Result<(), AllocError>
        ensures { OnOk result (Image (PutsOn (results block_type)) (Stand self.old) (Stand self.new) true) }
    {
        match block_type {
            Some(val_type) => self.leave(val_type),
            None => Ok(()),
        }
    }

    /// Whether these may be what a block of this type leaves.
    pub fn are(mut self, left: BlockType) -> bool
        ensures { IsTrue result ↔ Stand self (results left) }
    {
        if !self.take_block(left) {
            return false;
        }
        self.may_be_none()
    }

    /// Whether there may be none.
    fn may_be_none(&self) -> bool
        ensures { IsTrue result ↔ Stand self.now [] }
    {
        self.kept.is_empty()
    }
}

/// What is known of a type of which both are known, if there is one.
fn both(first: Option<ValType>, second: Option<ValType>) -> Option<Option<ValType>>
    ensures { IsBoth first second result }
{
    let Some(one) = first else {
        return Some(second);
    };
    let Some(other) = second else {
        return Some(first);
    };
    if one == other { Some(first) } else { None }
}
