//! Interns the lines of an input.
ghost use Rattle.std.specs.Prelude.{◌≡◌, ◌+◌, ◌<◌, ◌≤◌, [], ◌++◌, length, map, None, IsSome, OnOk, IfOk, IfErr};
ghost use Rattle.intaglio_interner.specs.Issue.{interned_all, issue, issue_from};
ghost use Rattle.intaglio_lines.specs.Lines.{lines_of};
ghost use Rattle.intaglio_lines.specs.LineForms.{AllLinesFit, StartsWithForms, StartsUnfit};
ghost use Rattle.intaglio_lines.specs.LineForms.{HoldsLines, distinct_count, fit_count};
ghost use Rattle.intaglio_lines.specs.ToolError.{IsInterningError, ReportsFirstUnfit};
ghost use Rattle.intaglio_lines.specs.declared.tool_error.ToolError.TheVariants.{Overflow};

use crate::from_line::FromLine;
use crate::lines::first_line;
use crate::tool_error::{ToolError, Unfit};
use intaglio_content::{Content, Store, Work};
use intaglio_interner::{BaseInterner, GROUP, get_or_intern_all};
use intaglio_symbol::Symbol;
use std::alloc::{AllocError, Global};

// Some lines as forms, the input after these lines, and why the next line doesn't fit, if it doesn't.
#[derive(Drop)]
struct Group<'a, F> {
    forms: Vec<F>,
    rest: &'a [u8],
    unfit: Option<Unfit>,
}

/// Interns the lines of an input in order into an empty table, and returns their symbols. A line that equals
/// an earlier one is not copied.
///
/// # Errors
///
/// What the kind says of the first line that doesn't fit ([`Unfit::at`]), `Overflow` if there are more
/// distinct lines than the table can hold, `Memory` if an allocation failed.
pub fn intern_lines<'a, T: BaseInterner>(
    alloc: Global,
    table: &mut T,
    input: &'a [u8],
) -> Result<Vec<Symbol>, ToolError>
where
    T::Content: FromLine<'a, T::Store>,
    requires allowed { T.Content.allows input.now }
    requires empty { (T.state table.old).contents ≡ [] }
    ensures symbols { IfOk result (λ symbols. symbols.items ≡ issue T.Content.key_of (lines_of input.now)) }
    ensures held { OnOk result
        (HoldsLines T.Content.spelling T.Content.key_of (T.state table.new) input.now) }
    ensures fit { OnOk result (AllLinesFit T.Content.fits input.now) }
    ensures zero { IfErr result (ReportsFirstUnfit T.Content.fits input.now) }
    ensures overflow { result ≡ Err Overflow →
        (T.state table.old).limit < distinct_count T.Content.key_of input.now }
    ensures err { IfErr result IsInterningError }
{
    let mut symbols = Vec::new(alloc);
    intern_more_lines(alloc, table, input, &mut symbols)?;
    Ok(symbols)
}

/// Interns the lines of an input in order, and adds their symbols to these. A
/// line that is stored is not copied.
///
/// # Errors
///
/// Those of [`intern_lines`]. Lines before the one that failed may be stored then.
#[tactic(auto, using(crate::proofs::Spellings::groups, std::proofs::lemmas::Grind::common_steps))]
pub fn intern_more_lines<'a, T: BaseInterner>(
    alloc: Global,
    table: &mut T,
    input: &'a [u8],
    symbols: &mut Vec<Symbol>,
) -> Result<(), ToolError>
where
    T::Content: FromLine<'a, T::Store>,
    requires allowed { T.Content.allows input.now }
    ensures symbols { let held = map T.Content.spelling (T.state table.old).contents in
        OnOk result (symbols.new.items
        ≡ symbols.old.items ++ issue_from T.Content.key_of held (lines_of input.now)) }
    ensures held { let held = map T.Content.spelling (T.state table.old).contents in
        OnOk result (map T.Content.spelling (T.state table.new).contents
        ≡ interned_all T.Content.key_of held (lines_of input.now)) }
    ensures limit { OnOk result ((T.state table.new).limit ≡ (T.state table.old).limit) }
    ensures fit { OnOk result (AllLinesFit T.Content.fits input.now) }
    ensures zero { IfErr result (ReportsFirstUnfit T.Content.fits input.now) }
    ensures overflow { let held = map T.Content.spelling (T.state table.old).contents in
        result ≡ Err Overflow →
        (T.state table.old).limit < length (interned_all T.Content.key_of held (lines_of input.now)) }
    ensures err { IfErr result IsInterningError }
{
    let mut rest = input;
    let mut number = 0u64;
    while !rest.is_empty() {
        let group = gather::<T::Store, T::Content>(alloc, rest)?;
        number += group.forms.len() as u64;
        let taken = get_or_intern_all(alloc, table, &group.forms, &mut Work::new())?;
        symbols.extend_from_slice(&taken)?;
        if let Some(unfit) = group.unfit {
            return Err(unfit.at(number + 1));
        }
        rest = group.rest;
    }
    Ok(())
}

// The first lines of an input as forms.
fn gather<'a, L: Store, C: FromLine<'a, L>>(
    alloc: Global,
    input: &'a [u8],
) -> Result<Group<'a, C::Line>, AllocError>
where
    L::Content: Content,
    requires allowed { C.allows input.now }
    requires some { 0 < length input.now }
    ensures allowed { IfOk result (λ group. C.allows group.rest.now) }
    ensures lines { IfOk result
        (λ group. StartsWithForms C.Line.form_spelling group.forms.items group.rest.now input.now) }
    ensures fit { IfOk result
        (λ group. fit_count C.fits input.now ≡ length group.forms.items + fit_count C.fits group.rest.now) }
    ensures zero { IfOk result (λ group. IsSome group.unfit → StartsUnfit C.fits group.rest.now) }
    ensures bytes { IfOk result
        (λ group. length group.forms.items + length group.rest.now ≤ length input.now) }
    ensures shorter { IfOk result (λ group. group.unfit ≡ None → length group.rest.now < length input.now) }
{
    let mut forms = Vec::with_capacity(alloc, GROUP)?;
    let mut rest = input;
    while forms.len() < GROUP && !rest.is_empty() {
        let (line, after) = first_line(rest);
        match C::from_line(line) {
            Ok(form) => forms.push_reserved(form),
            Err(unfit) => {
                return Ok(Group {
                    forms,
                    rest,
                    unfit: Some(unfit),
                });
            }
        }
        rest = after;
    }
    Ok(Group {
        forms,
        rest,
        unfit: None,
    })
}
