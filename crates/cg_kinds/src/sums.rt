//! Numbers, and the sums of their parts.
ghost use Rattle.std.specs.Prelude.{◌≡◌, ◌+◌, ◌-◌, ◌*◌, ◌<◌, ◌≤◌, ◌^◌, min, ◌++◌, ◌∷◌, ℕ, [], length, slice_index, slice_set, IfOk, OnOk, OnErr};
ghost use Rattle.std.specs.List.{sum};
ghost use Rattle.cg_kinds.specs.Order.{sum_before, AreSums};

use std::alloc::{AllocError, Global};
use std::marker::Model;

/// How many numbers one sum covers.
pub const PART: usize = 16;

/// Numbers and, if there are more than 16, the sum of each 16, which have sums above them in turn.
///
/// So changing a number changes one sum per level, and a prefix sum adds at most 16 numbers per
/// level.
#[derive(Drop)]
pub struct Sums {
    numbers: Vec<u32>,
    above: Option<Box<Sums>>,
}

impl Model for Sums {
    ghost use Rattle.std.specs.Prelude.{List, ℕ, length};
    ghost use Rattle.cg_kinds.specs.Pairs.{unboxed};
    ghost use Rattle.cg_kinds.specs.Order.{AreAbove};

    ghost Value = { List ℕ };

    ghost view = { λ s. s.numbers.items };

    ghost invariant = { λ s. AreAbove s.numbers.items (unboxed s.above) };

    ghost size = { length };

    ghost use Rattle.std.proofs.Common.{arith};

    ghost size_decreases = { λ a h. Prim.grind (arith) };
}

fn sum_of(numbers: &[u32]) -> usize
    requires { sum numbers.now < 2 ^ 32 }
    ensures { result ≡ sum numbers.now }
{
    let mut all = 0;
    'numbers: for number in numbers {
        all += *number as usize;
    }
    all
}

/// The position, from `first` on, at which a running sum reaches `count`, and the rest of `count`
/// within it.
fn reached_from(numbers: &[u32], first: usize, count: usize) -> (usize, usize)
    requires { sum_before numbers.now first + count < sum numbers.now }
    ensures within { result.0 < length numbers.now }
    ensures before { sum_before numbers.now result.0 + result.1 ≡ sum_before numbers.now first +
        count }
    ensures there { result.1 < slice_index numbers.now result.0 }
{
    let mut left = count;
    'numbers: for at in first..numbers.len() {
        let number = numbers[at] as usize;
        if left < number {
            return (at, left);
        }
        left -= number;
    }
    unreachable!()
}

/// The sum of 16 numbers, and a 0 for those to come.
fn first_sums(alloc: Global, numbers: &[u32]) -> Result<Box<Sums>, AllocError>
    requires { sum numbers.now < 2 ^ 32 }
    ensures { IfOk result (λ sums. sums.value ≡ sum numbers.now ∷ 0 ∷ []) }
{
    let mut sums = Vec::with_capacity(alloc, 2)?;
    sums.push_reserved(sum_of(numbers) as u32);
    sums.push_reserved(0);
    let boxed = Box::new(
        alloc,
        Sums {
            numbers: sums,
            above: None,
        },
    )?;
    Ok(boxed)
}

/// Sets numbers to 16 each as far as the count goes, one to the remainder, and later ones to 0.
fn deal_out(numbers: &mut [u32], count: usize)
    ensures long { length numbers.new ≡ length numbers.old }
    ensures each { (i : ℕ) → i < length numbers.new → slice_index numbers.new i
        ≡ min 16 (count - 16 * i) }
{
    let mut left = count;
    'numbers: for i in 0..numbers.len() {
        let here = left.min(PART);
        numbers[i] = here as u32;
        left -= here;
    }
}

/// The sums of the parts of numbers.
fn sum_parts(sums: &mut [u32], numbers: &[u32])
    requires covered { length numbers.now ≤ 16 * length sums.old }
    requires small { sum numbers.now < 2 ^ 32 }
    ensures long { length sums.new ≡ length sums.old }
    ensures each { AreSums (sum_before numbers.now) sums.new }
{
    let mut rest = numbers;
    'parts: for part in 0..sums.len() {
        let (here, more) = rest.split_at(PART.min(rest.len()));
        sums[part] = sum_of(here) as u32;
        rest = more;
    }
}

impl Sums {
    /// No numbers, with room for `room`.
    pub fn with_room(alloc: Global, room: usize) -> Result<Sums, AllocError>
        ensures { IfOk result (λ sums. sums ≡ []) }
    {
        let numbers = Vec::with_capacity(alloc, room)?;
        Ok(Sums {
            numbers,
            above: None,
        })
    }

    /// The number of numbers.
    #[inline(always)]
    pub fn len(&self) -> usize
        ensures { result ≡ length self.now }
    {
        self.numbers.len()
    }

    /// The number at an index.
    #[inline(always)]
    pub fn at(&self, i: usize) -> usize
        requires { i < length self.now }
        ensures { result ≡ slice_index self.now i }
    {
        self.numbers[i] as usize
    }

    /// The sum of the numbers before a position.
    pub fn before(&self, i: usize) -> usize
        requires within { i ≤ length self.now }
        requires small { sum self.now < 2 ^ 32 }
        ensures { result ≡ sum_before self.now i }
    {
        match &self.above {
            Some(parts) => {
                let part = i / PART;
                parts.before(part) + sum_of(&self.numbers[part * PART..i])
            }
            None => sum_of(&self.numbers[..i]),
        }
    }

    /// The position at which the running sum reaches `count`, and the rest of `count` within it.
    pub fn reached(&self, count: usize) -> (usize, usize)
        requires { count < sum self.now }
        ensures within { result.0 < length self.now }
        ensures before { sum_before self.now result.0 + result.1 ≡ count }
        ensures there { result.1 < slice_index self.now result.0 }
    {
        match &self.above {
            Some(parts) => {
                let (part, left) = parts.reached(count);
                reached_from(self.numbers.as_slice(), part * PART, left)
            }
            None => reached_from(self.numbers.as_slice(), 0, count),
        }
    }

    /// Raises a number by 1.
    pub fn raise(&mut self, i: usize)
        requires within { i < length self.old }
        requires small { sum self.old + 1 < 2 ^ 32 }
        ensures { self.new ≡ slice_set self.old i (slice_index self.old i + 1) }
    {
        self.numbers[i] += 1;
        if let Some(parts) = &mut self.above {
            parts.raise(i / PART);
        }
    }

    /// Lowers a number by 1.
    pub fn lower(&mut self, i: usize)
        requires within { i < length self.old }
        requires some { 0 < slice_index self.old i }
        ensures { self.new ≡ slice_set self.old i (slice_index self.old i - 1) }
    {
        self.numbers[i] -= 1;
        if let Some(parts) = &mut self.above {
            parts.lower(i / PART);
        }
    }

    /// Appends a 0.
    pub fn push(&mut self) -> Result<(), AllocError>
        requires { sum self.old < 2 ^ 32 }
        ensures ok { OnOk result (self.new ≡ self.old ++ 0 ∷ []) }
        ensures err { OnErr result (self.new ≡ self.old) }
    {
        match &mut self.above {
            Some(parts) => {
                if self.numbers.len() / PART == parts.len() {
                    parts.push()?;
                }
            }
            None => {
                if self.numbers.len() == PART {
                    let alloc = *self.numbers.allocator();
                    self.above = Some(first_sums(alloc, self.numbers.as_slice())?);
                }
            }
        }
        self.numbers.push(0)?;
        Ok(())
    }

    /// Recomputes the sums for other numbers.
    fn sum_again(&mut self, numbers: &[u32])
        requires covered { length numbers.now ≤ 16 * length self.old }
        requires small { sum numbers.now < 2 ^ 32 }
        ensures long { length self.new ≡ length self.old }
        ensures each { AreSums (sum_before numbers.now) self.new }
    {
        sum_parts(self.numbers.as_mut_slice(), numbers);
        if let Some(parts) = &mut self.above {
            parts.sum_again(self.numbers.as_slice());
        }
    }

    /// Sets numbers to 16 each as far as the count goes, one to the remainder, and later ones to 0.
    pub fn deal(&mut self, count: usize)
        requires { count < 2 ^ 32 }
        ensures long { length self.new ≡ length self.old }
        ensures each { (i : ℕ) → i < length self.new → slice_index self.new i
            ≡ min 16 (count - 16 * i) }
    {
        deal_out(self.numbers.as_mut_slice(), count);
        if let Some(parts) = &mut self.above {
            parts.sum_again(self.numbers.as_slice());
        }
    }
}
