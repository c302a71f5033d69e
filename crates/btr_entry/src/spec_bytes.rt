//! The spec of an output as bytes, and back.
ghost use Rattle.std.specs.Prelude.{◌≡◌, Option, ℕ, ◌<◌, ◌≤◌, ◌^◌, List, ◌∷◌, ◌++◌, length, slice_index_or, IsTrue, IfSome, IfNone, OnOk};
ghost use Rattle.std.specs.Int.{w32};
ghost use Rattle.btr_hist.specs.declared.kernel.Kernel.{Kernel as KernelSpec};
ghost use Rattle.btr_hist.specs.declared.kernel.Spec.{Spec as SpecValue};
ghost use Rattle.btr_hist.specs.Kernel.{is_good};
ghost use Rattle.btr_entry.specs.Grammar.{one_or_two, kernel_bytes, spec_bytes, KernelFits, IsSpec};

use crate::fields::{put_byte, put_signed, put_u32, put_u64, read_i64, read_u32, read_u64};
use btr_hist::{Kernel, Spec};
use std::alloc::AllocError;

/// Returns the number of bytes of a spec. It takes constant time and no memory.
pub fn spec_length(spec: &Spec) -> u64
    ensures length { result ≡ length (spec_bytes spec.now) }
    ensures small { result ≤ 43 }
{
    kernel_length(spec.kernel) + 9 + inputs_length(spec.first, spec.second)
}

/// Returns the number of bytes of a kernel.
fn kernel_length(kernel: Kernel) -> u64
    ensures length { result ≡ length (kernel_bytes kernel) }
    ensures small { result ≤ 25 }
{
    match kernel {
        Kernel::Affine { .. } => 25,
        Kernel::Sum
        | Kernel::Mean
        | Kernel::Least
        | Kernel::Greatest
        | Kernel::Count
        | Kernel::Delta
        | Kernel::Minus
        | Kernel::Angle
        | Kernel::Hold => 1,
        Kernel::Cell { .. } => 3,
    }
}

/// Returns the number of bytes of the inputs' streams, with their number.
fn inputs_length(first: u32, second: Option<u32>) -> u64
    ensures length { result ≡ length (one_or_two w32 first second) }
    ensures small { result ≤ 9 }
{
    match second {
        Some(_) => 9,
        None => 5,
    }
}

/// Appends the bytes of a spec.
pub fn put_spec(out: &mut Vec<u8>, spec: &Spec) -> Result<(), AllocError>
    requires { IsTrue (is_good spec.now) }
    ensures bytes { OnOk result (out.new.items ≡ out.old.items ++ spec_bytes spec.now) }
    ensures spelled { OnOk result (IsSpec spec.now) }
{
    put_kernel(out, spec.kernel)?;
    put_u64(out, spec.lead)?;
    put_byte(out, spec.grain)?;
    put_inputs(out, spec.first, spec.second)
}

/// Appends the number of a kernel, and the numbers of `Affine` or of `Cell`.
fn put_kernel(out: &mut Vec<u8>, kernel: Kernel) -> Result<(), AllocError>
    ensures bytes { OnOk result (out.new.items ≡ out.old.items ++ kernel_bytes kernel) }
    ensures fits { OnOk result (KernelFits kernel) }
{
    match kernel {
        Kernel::Affine { a, b, d } => {
            put_byte(out, 1)?;
            put_signed(out, a)?;
            put_signed(out, b)?;
            put_signed(out, d)
        }
        Kernel::Cell { which, p } => {
            put_byte(out, 11)?;
            put_byte(out, which)?;
            put_byte(out, p)
        }
        _ => put_byte(out, kernel_number(kernel)),
    }
}

/// Returns the number of a kernel.
fn kernel_number(kernel: Kernel) -> u8
    ensures { result ≡ slice_index_or (kernel_bytes kernel) 0 0 }
{
    match kernel {
        Kernel::Affine { .. } => 1,
        Kernel::Sum => 2,
        Kernel::Mean => 3,
        Kernel::Least => 4,
        Kernel::Greatest => 5,
        Kernel::Count => 6,
        Kernel::Delta => 7,
        Kernel::Minus => 8,
        Kernel::Angle => 9,
        Kernel::Hold => 10,
        Kernel::Cell { .. } => 11,
    }
}

/// Appends the number of inputs, and the stream of each.
fn put_inputs(out: &mut Vec<u8>, first: u32, second: Option<u32>) -> Result<(), AllocError>
    ensures bytes { OnOk result (out.new.items ≡ out.old.items ++ one_or_two w32 first second) }
    ensures first_fits { OnOk result (first < 2 ^ 32) }
    ensures second_fits { OnOk result (IfSome second (λ stream. stream < 2 ^ 32)) }
{
    match second {
        None => {
            put_byte(out, 1)?;
            put_u32(out, first)
        }
        Some(second) => {
            put_byte(out, 2)?;
            put_u32(out, first)?;
            put_u32(out, second)
        }
    }
}

/// Reads a spec from the first bytes, and returns it with the bytes after it. Returns `None` if they are those of no spec
/// that an output can have.
pub fn read_spec(bytes: &[u8]) -> Option<(Spec, &[u8])>
    ensures some { IfSome result (λ x. bytes.now ≡ spec_bytes x.0 ++ x.1.now) }
    ensures fits { IfSome result (λ x. IsSpec x.0) }
    ensures none { IfNone result ((s : SpecValue) (rest : List ℕ) → IsSpec s → bytes.now ≡ spec_bytes s ++ rest → ⊥) }
{
    let (kernel, rest) = read_kernel(bytes)?;
    let (lead, rest) = read_u64(rest)?;
    let (grain, rest) = rest.split_first()?;
    let (first, second, rest) = read_inputs(rest)?;
    let spec = Spec {
        kernel,
        lead,
        grain: *grain,
        first,
        second,
    };
    if !spec.is_good() {
        return None;
    }
    Some((spec, rest))
}

/// Reads a kernel from the first bytes, and returns it with the bytes after it. Returns `None` if they are no kernel's.
fn read_kernel(bytes: &[u8]) -> Option<(Kernel, &[u8])>
    ensures some { IfSome result (λ x. bytes.now ≡ kernel_bytes x.0 ++ x.1.now) }
    ensures fits { IfSome result (λ x. KernelFits x.0) }
    ensures none { IfNone result ((k : KernelSpec) (rest : List ℕ) → bytes.now ≡ kernel_bytes k ++ rest → ⊥) }
{
    let (number, rest) = bytes.split_first()?;
    match *number {
        1 => read_affine(rest),
        2 => Some((Kernel::Sum, rest)),
        3 => Some((Kernel::Mean, rest)),
        4 => Some((Kernel::Least, rest)),
        5 => Some((Kernel::Greatest, rest)),
        6 => Some((Kernel::Count, rest)),
        7 => Some((Kernel::Delta, rest)),
        8 => Some((Kernel::Minus, rest)),
        9 => Some((Kernel::Angle, rest)),
        10 => Some((Kernel::Hold, rest)),
        11 => read_cell(rest),
        _ => None,
    }
}

/// Reads the three numbers of `Affine`, and returns the kernel with the bytes after them. Returns `None` if there are
/// fewer bytes.
fn read_affine(bytes: &[u8]) -> Option<(Kernel, &[u8])>
    ensures some { IfSome result (λ x. 1 ∷ bytes.now ≡ kernel_bytes x.0 ++ x.1.now) }
    ensures fits { IfSome result (λ x. KernelFits x.0) }
    ensures none { IfNone result (length bytes.now < 24) }
{
    if bytes.len() < 24 {
        return None;
    }
    let (a, rest) = read_i64(bytes);
    let (b, rest) = read_i64(rest);
    let (d, rest) = read_i64(rest);
    Some((Kernel::Affine { a, b, d }, rest))
}

/// Reads the two numbers of `Cell`, and returns the kernel with the bytes after them. Returns `None` if there are fewer
/// bytes.
fn read_cell(bytes: &[u8]) -> Option<(Kernel, &[u8])>
    ensures some { IfSome result (λ x. 11 ∷ bytes.now ≡ kernel_bytes x.0 ++ x.1.now) }
    ensures fits { IfSome result (λ x. KernelFits x.0) }
    ensures none { IfNone result (length bytes.now < 2) }
{
    let (which, rest) = bytes.split_first()?;
    let (p, rest) = rest.split_first()?;
    let kernel = Kernel::Cell {
        which: *which,
        p: *p,
    };
    Some((kernel, rest))
}

/// Reads the number of inputs and the stream of each, and returns them with the bytes after them. Returns `None` if there
/// is not one input, or two, or there are fewer bytes.
fn read_inputs(bytes: &[u8]) -> Option<(u32, Option<u32>, &[u8])>
    ensures some { IfSome result (λ x. bytes.now ≡ one_or_two w32 x.0 x.1 ++ x.2.now) }
    ensures first_fits { IfSome result (λ x. x.0 < 2 ^ 32) }
    ensures second_fits { IfSome result (λ x. IfSome x.1 (λ stream. stream < 2 ^ 32)) }
    ensures none { IfNone result ((a : ℕ) (b : Option ℕ) (rest : List ℕ) → bytes.now ≡ one_or_two w32 a b ++ rest → ⊥) }
{
    let (count, rest) = bytes.split_first()?;
    let (first, rest) = read_u32(rest)?;
    match *count {
        1 => Some((first, None, rest)),
        2 => {
            let (second, rest) = read_u32(rest)?;
            Some((first, Some(second), rest))
        }
        _ => None,
    }
}
