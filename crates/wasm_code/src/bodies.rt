//! Bodies of functions, and the calls of this crate over a range of a file.

ghost use Rattle.std.specs.Prelude.{◌≡◌, ◌≤◌, ◌⊎◌, [], length, slice_range, IfOk, IfErr, Ok, Err, ℕ};
ghost use Rattle.wasm_ast.specs.declared.bodies.Body.{Body};
ghost use Rattle.wasm_ast.specs.declared.trees.Seq.{Seq};
ghost use Rattle.wasm_code.specs.declared.error.DecodeError.{DecodeError};
ghost use Rattle.wasm_code.specs.declared.error.DecodeError.TheVariants.{NoMemory};
ghost use Rattle.wasm_code.specs.Answers.{place, ReadsAs, OrNoMemory};
ghost use Rattle.wasm_code.specs.Grammar.{IsBody, ExprTo};
ghost use Rattle.wasm_code.specs.Places.{Fails, part};
ghost use Rattle.wasm_code.specs.Reading as reading;

use crate::error::DecodeError;
use crate::input::Input;
use crate::reader::expr;
use std::alloc::Global;
use wasm_ast::{Body, Seq, ValType};

/// So many groups of locals of one type: at most 1,024 locals of the body numbered `function`.
fn locals(
    alloc: Global,
    function: u32,
    groups: u32,
    input: Input,
) -> Result<(Vec<ValType>, Input), DecodeError>
    ensures { ReadsAs (λ x. (x.0.items, place x.1)) result (reading.locals function groups 1024 (place input.entry)) }
{
    let mut found = Vec::new(alloc);
    let mut room = 1024;
    let mut left = input;
    'groups: for _ in 0..groups {
        let (count, after) = left.u32()?;
        if count > room {
            return Err(DecodeError::TooManyLocals(function));
        }
        let (val_type, after) = after.val_type()?;
        found.resize(found.len() + count as usize, val_type)?;
        room -= count;
        left = after;
    }
    Ok((found, left))
}

/// The contents of the body numbered `function`: its locals and its code.
#[tactic(auto, unfolding(crate::specs::Reading::body))]
fn body(alloc: Global, function: u32, input: Input) -> Result<(Body, Input), DecodeError>
    ensures { ReadsAs (λ x. (x.0, place x.1)) result (reading.body function (place input.entry)) }
{
    let (groups, after) = input.u32()?;
    let (declared, after) = locals(alloc, function, groups, after)?;
    let (code, after) = expr(alloc, after)?;
    Ok((Body::new(declared, code), after))
}

/// The body numbered `function`, which fills what is left of its range.
///
/// # Errors
///
/// The first fault, or out of memory.
pub fn filled_body(alloc: Global, function: u32, input: Input) -> Result<Body, DecodeError>
    ensures { ReadsAs (λ x. x) result (reading.whole_body function (place input.entry)) }
{
    let (body, left) = body(alloc, function, input)?;
    left.ended()?;
    Ok(body)
}

/// The body numbered `function`, which fills the bytes of a file from `start` to `end`.
///
/// # Errors
///
/// The first fault, or out of memory.
pub fn decode_code(
    alloc: Global,
    bytes: &[u8],
    start: u32,
    end: u32,
    function: u32,
) -> Result<Body, DecodeError>
    requires from { start ≤ end }
    requires to { end ≤ length bytes.now }
    ensures found { IfOk result (λ body. IsBody body (slice_range bytes.now start end) []) }
    ensures only { (body : Body) → IsBody body (slice_range bytes.now start end) [] → OrNoMemory result (Ok body) }
    ensures fault { IfErr result (λ e. (e ≡ NoMemory) ⊎ Fails (reading.whole_body function (part start end bytes.now)) e) }
    ensures first { (e : DecodeError) → Fails (reading.whole_body function (part start end bytes.now)) e → OrNoMemory result (Err e) }
{
    filled_body(alloc, function, Input::part(bytes, start, end))
}

/// The expression that begins the bytes of a file from `start` to `end`, and the offset behind it.
///
/// # Errors
///
/// The first fault, or out of memory.
pub fn decode_expr(
    alloc: Global,
    bytes: &[u8],
    start: u32,
    end: u32,
) -> Result<(Seq, u32), DecodeError>
    requires from { start ≤ end }
    requires to { end ≤ length bytes.now }
    ensures found { IfOk result (λ x. ExprTo start end bytes.now x) }
    ensures only { (x : Seq × ℕ) → ExprTo start end bytes.now x → OrNoMemory result (Ok x) }
    ensures fault { IfErr result (λ e. (e ≡ NoMemory) ⊎ Fails (reading.expr_to (part start end bytes.now)) e) }
    ensures first { (e : DecodeError) → Fails (reading.expr_to (part start end bytes.now)) e → OrNoMemory result (Err e) }
{
    expr_to(alloc, Input::part(bytes, start, end))
}

/// The expression that begins here, and the offset behind it.
fn expr_to(alloc: Global, input: Input) -> Result<(Seq, u32), DecodeError>
    ensures { ReadsAs (λ x. x) result (reading.expr_to (place input.entry)) }
{
    let (code, after) = expr(alloc, input)?;
    Ok((code, after.at))
}
