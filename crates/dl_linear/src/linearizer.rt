//! The lines of formulas over their atoms.

ghost use Rattle.std.specs.Prelude.{◌≡◌, true, false, if◌then◌else◌, Some, None, IfOk, OnOk, Err, []};
ghost use Rattle.dl_linear.specs.Forms.{with_atom, with_atoms, atoms_from, rows_for, rows_fit, line_of as line_meant, line_fits, coefficient as coefficient_meant, coefficient_fits, bound as bound_meant, bound_fits, lines_from, are_narrow, all_sides, SayTheFormulas, SayTheSides};
ghost use Rattle.dl_linear.specs.Seen.{seen, all_seen};
ghost use Rattle.dl_linear.specs.declared.line.LineFault.TheVariants.{TooWide};

use crate::form::{constant, is_among, read_form};
use crate::line::{Line, LineFault, Lines};
use crate::narrow::{less_both, subtract};
use crate::sides::{Sides, sides_of};
use dl_term::{Formula, Term, copy_term};
use sqlite_items::Items;
use std::alloc::{AllocError, Global};

/// The lines of formulas, a row for each formula, over the atoms of all: `a <= b` gives `a - b <= 0`, `a < b` gives
/// `a - b <= -1`, `a = b` an equality, and the negation of an inequality the reversed one. Every other formula
/// has no line, its row is None, and it isn't looked at.
///
/// `TooWide` comes exactly where a coefficient or a bound is no number of 64 bits: of a line, or of the linear form
/// of a side or of a part of a side. `Memory` comes only where memory is refused.
///
/// The time is about the size of the formulas times the number of their atoms.
pub fn lines_of(alloc: Global, formulas: &[Formula]) -> Result<Lines, LineFault>
    ensures lines { IfOk result (λ lines. lines ≡ lines_from (all_sides formulas.now)) }
    ensures narrow { IfOk result (λ lines. are_narrow (all_sides formulas.now) ≡ true) }
    ensures wide { result ≡ Err TooWide → are_narrow (all_sides formulas.now) ≡ false }
    ensures meaning { IfOk result (λ lines. SayTheFormulas lines formulas.now) }
{
    let mut all = Vec::new(alloc);
    for formula in formulas {
        if all.push(sides_of(formula)).is_err() {
            return Err(LineFault::Memory(AllocError));
        }
    }
    lines_of_sides(alloc, all.as_slice())
}

/// The lines of sides, as `lines_of` makes them of formulas: a row for each, and None for None. A caller that has
/// formulas elsewhere, or looks at some of them alone, need copy none.
pub fn lines_of_sides(alloc: Global, all: &[Option<Sides<'_>>]) -> Result<Lines, LineFault>
    ensures lines { IfOk result (λ lines. lines ≡ lines_from (all_seen all.now)) }
    ensures narrow { IfOk result (λ lines. are_narrow (all_seen all.now) ≡ true) }
    ensures wide { result ≡ Err TooWide → are_narrow (all_seen all.now) ≡ false }
    ensures meaning { IfOk result (λ lines. SayTheSides lines (all_seen all.now)) }
{
    let atoms = match atoms_of(alloc, all) {
        Ok(atoms) => atoms,
        Err(error) => return Err(LineFault::Memory(error)),
    };
    match rows_of(alloc, all, atoms.as_slice()) {
        Ok(rows) => Ok(Lines { atoms, rows }),
        Err(fault) => Err(fault),
    }
}

// The atoms of all sides, each once.
fn atoms_of(alloc: Global, all: &[Option<Sides<'_>>]) -> Result<Items<Term>, AllocError>
    ensures { IfOk result (λ atoms. atoms ≡ atoms_from [] (all_seen all.now)) }
{
    let mut atoms = Items::new(alloc);
    for row in all {
        if let Some(sides) = *row {
            add_atoms(alloc, &mut atoms, sides.left)?;
            add_atoms(alloc, &mut atoms, sides.right)?;
        }
    }
    Ok(atoms)
}

// Adds the atoms of a term that are new.
#[tactic(auto, unfolding(dl_term::specs::Syntax::opened))]
fn add_atoms(alloc: Global, atoms: &mut Items<Term>, term: &Term) -> Result<(), AllocError>
    ensures { OnOk result (atoms.new ≡ with_atoms term.now atoms.old) }
{
    match term {
        Term::Num(_) => Ok(()),
        Term::Word { .. } => Ok(()),
        Term::Add(left, right) => {
            add_atoms(alloc, atoms, left.get())?;
            add_atoms(alloc, atoms, right.get())
        }
        Term::Sub(left, right) => {
            add_atoms(alloc, atoms, left.get())?;
            add_atoms(alloc, atoms, right.get())
        }
        Term::Mul(left, right) => match (constant(left.get()), constant(right.get())) {
            (Some(_), _) => add_atoms(alloc, atoms, right.get()),
            (None, Some(_)) => add_atoms(alloc, atoms, left.get()),
            (None, None) => add_atom(alloc, atoms, term),
        },
        _ => add_atom(alloc, atoms, term),
    }
}

fn add_atom(alloc: Global, atoms: &mut Items<Term>, term: &Term) -> Result<(), AllocError>
    ensures { OnOk result (atoms.new ≡ with_atom term.now atoms.old) }
{
    if is_among(term, atoms.as_slice()) {
        return Ok(());
    }
    let atom = copy_term(alloc, term)?;
    atoms.push(atom)
}

fn rows_of(
    alloc: Global,
    all: &[Option<Sides<'_>>],
    atoms: &[Term],
) -> Result<Items<Option<Line>>, LineFault>
    ensures rows { IfOk result (λ rows. rows ≡ rows_for atoms.now (all_seen all.now)) }
    ensures narrow { IfOk result (λ rows. rows_fit atoms.now (all_seen all.now) ≡ true) }
    ensures wide { result ≡ Err TooWide → rows_fit atoms.now (all_seen all.now) ≡ false }
{
    let mut rows = Items::new(alloc);
    for row in all {
        let line = match *row {
            Some(sides) => match line_of(alloc, sides, atoms) {
                Ok(line) => Some(line),
                Err(fault) => return Err(fault),
            },
            None => None,
        };
        if let Err(error) = rows.push(line) {
            return Err(LineFault::Memory(error));
        }
    }
    Ok(rows)
}

// The line of two sides.
fn line_of(alloc: Global, sides: Sides, atoms: &[Term]) -> Result<Line, LineFault>
    ensures line { IfOk result (λ line. line ≡ line_meant atoms.now (seen sides.entry)) }
    ensures narrow { IfOk result (λ line. line_fits atoms.now (seen sides.entry) ≡ true) }
    ensures wide { result ≡ Err TooWide → line_fits atoms.now (seen sides.entry) ≡ false }
{
    let mut coefs = Items::new(alloc);
    for atom in atoms {
        match coefficient(sides, atom) {
            Some(coef) => {
                if let Err(error) = coefs.push(coef) {
                    return Err(LineFault::Memory(error));
                }
            }
            None => return Err(LineFault::TooWide),
        }
    }
    match bound(sides) {
        Some(bound) => Ok(Line {
            coefs,
            bound,
            equal: sides.equal,
        }),
        None => Err(LineFault::TooWide),
    }
}

// The coefficient of an atom in the line.
fn coefficient(sides: Sides, atom: &Term) -> Option<i64>
    ensures { result ≡ (if coefficient_fits (seen sides.entry) atom.now then Some (coefficient_meant (seen sides.entry) atom.now) else None) }
{
    subtract(
        read_form(sides.left, Some(atom)),
        read_form(sides.right, Some(atom)),
    )
}

// The bound of the line.
fn bound(sides: Sides) -> Option<i64>
    ensures { result ≡ (if bound_fits (seen sides.entry) then Some (bound_meant (seen sides.entry)) else None) }
{
    let left = read_form(sides.left, None)?;
    let right = read_form(sides.right, None)?;
    less_both(right, left, sides.gap)
}
