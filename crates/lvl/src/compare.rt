//! Compares two files: reads them, checks them, and compares them strip by strip under a view.
ghost use Rattle.std.specs.Prelude.{◌≡◌, false, List, ℕ, Some, Ok, Err, IfOk, IfErr};
ghost use Rattle.lvl_region.specs.declared.region.Side.TheVariants.{First, Second};
ghost use Rattle.lvl_names.specs.declared.layer.Layer.{Layer as PlainLayer};
ghost use Rattle.lvl_grid.specs.declared.point.Square.{Square};
ghost use Rattle.lvl_region.specs.declared.region.Side.{Side as WhichSide};
ghost use Rattle.lvl_profile.specs.Profiles.{strict};
ghost use Rattle.lvl_view.specs.Views.{IsWhole};
ghost use Rattle.lvl.specs.declared.layout.FileFault.{FileFault as FaultOfFile};
ghost use Rattle.lvl.specs.declared.verdict.Verdict.TheVariants.{Same, Differ};
ghost use Rattle.lvl.specs.declared.verdict.Refusal.TheVariants.{File as FileRefused};
ghost use Rattle.lvl.specs.Accepted.{AreSame, AreDifferent, IsVerdict};
ghost use Rattle.lvl.specs.Kept.{Kept, IsCheckedAs, IsKeptVerdict, IsKeptRefusal};
ghost use Rattle.lvl.specs.Questions.{IfAsked, IsAnswerBy, IsBySteps, IsKeptJudged, IsVerdictIn, asked};
ghost use Rattle.lvl.specs.Readers.{IsReadBy, input, refusal_of};
ghost use Rattle.lvl.specs.Reasons.{IsKeptReason};
ghost use Rattle.lvl.specs.Sides.{file, given_name, library_of};
ghost use Rattle.lvl.specs.Views.{IsViewVerdict};

use crate::question::{Answer, Judged, Question};
use crate::reason::judge;
use crate::side::{check_side, fit_side, read_side, undrawn_of};
use crate::steps::may_compare;
use crate::verdict::{Refusal, Tops, Verdict};
use lvl_cells::{Checked, Library};
use lvl_io::Read;
use lvl_profile::Profile;
use lvl_region::Side;
use lvl_view::View;
use lvl_why::Why;
use std::alloc::Global;

/// Compares two sound libraries under the view. Returns the verdict, and its reason if that is asked for.
fn compare_checked(
    alloc: Global,
    ours: Checked,
    theirs: Checked,
    view: &View,
    explained: bool,
) -> Result<(Verdict, Option<Why>), Refusal>
    ensures verdict { (a b : Kept) → IsCheckedAs a ours → IsCheckedAs b theirs
        → IfOk result (λ found. IsKeptVerdict view.now a b found.0) }
    ensures reason { (a b : Kept) → IsCheckedAs a ours → IsCheckedAs b theirs
        → IfOk result (λ found. IfAsked explained (IsKeptReason view.now a b found.0) found.1) }
    ensures refused { (a b : Kept) → IsCheckedAs a ours → IsCheckedAs b theirs
        → IfErr result (IsKeptRefusal a b) }
{
    let ours = fit_side(alloc, Side::First, ours)?;
    let theirs = fit_side(alloc, Side::Second, theirs)?;
    match judge(alloc, &ours, &theirs, view, explained) {
        Ok(found) => Ok(found),
        Err(_) => Err(Refusal::OutOfMemory),
    }
}

/// Checks the libraries of both files and compares them.
fn compare_libraries(
    alloc: Global,
    ours: Library,
    theirs: Library,
    question: &Question<'_>,
) -> Result<Judged, Refusal>
    ensures judged { IfOk result (IsKeptJudged (asked question.now)
        (library_of question.now.profile.limits ours question.now.tops.now.first)
        (library_of question.now.profile.limits theirs question.now.tops.now.second)) }
    ensures refused { IfErr result (IsKeptRefusal
        (library_of question.now.profile.limits ours question.now.tops.now.first)
        (library_of question.now.profile.limits theirs question.now.tops.now.second)) }
{
    let limits = question.profile.limits;
    let undrawn = undrawn_of(alloc, &theirs, question.view)?;
    let ours = check_side(alloc, Side::First, limits, ours, &question.tops.first)?;
    let theirs = check_side(alloc, Side::Second, limits, theirs, &question.tops.second)?;
    let (verdict, why) = compare_checked(alloc, ours, theirs, question.view, question.why)?;
    Ok(Judged {
        verdict,
        undrawn,
        why,
    })
}

/// The answer to a question on two files. The second file isn't read if the first is refused while it is read; and if
/// their grid steps must agree ([`agree_in_steps`](crate::agree_in_steps)) and don't, the files are read and nothing
/// else is done. [`compare_layouts`] and [`compare_view`] are this call with the standard profile.
///
/// The reason says by which references and which shape the side that alone covers the square does so. On the second
/// side, a shape counts whose Layer is mapped to that of the difference.
pub fn compare_files<A: Read, B: Read>(
    alloc: Global,
    first: &mut A,
    second: &mut B,
    question: &Question<'_>,
) -> Result<Answer, Refusal>
    ensures answer { IsAnswerBy (asked question.now)
        (input question.now.profile (A.remaining first.old) (A.remaining first.new)
        (A.read_errors first.old) (A.read_errors first.new) (given_name question.now.tops.now.first))
        (input question.now.profile (B.remaining second.old) (B.remaining second.new)
        (B.read_errors second.old) (B.read_errors second.new) (given_name question.now.tops.now.second)) result }
    ensures kept { (fault : FaultOfFile) → result ≡ Err (FileRefused First fault) → second.new ≡ second.old }
{
    let (ours, first) = read_side(alloc, Side::First, first, question.profile)?;
    let (theirs, second) = read_side(alloc, Side::Second, second, question.profile)?;
    if !may_compare(question.units, &first, &second) {
        return Ok(Answer {
            first,
            second,
            judged: None,
        });
    }
    let judged = compare_libraries(alloc, ours, theirs, question)?;
    Ok(Answer {
        first,
        second,
        judged: Some(judged),
    })
}

/// The verdict of an answer to a question in which the grid steps needn't agree.
fn verdict_of(answer: Result<Answer, Refusal>) -> Result<Verdict, Refusal>
    requires { IfOk answer (IsBySteps false) }
    ensures verdict { IfOk result (IsVerdictIn answer) }
    ensures refusal { refusal_of result ≡ refusal_of answer }
{
    match answer {
        Ok(answer) => match answer.judged {
            Some(judged) => Ok(judged.verdict),
            None => unreachable!(),
        },
        Err(refusal) => Err(refusal),
    }
}

/// Whether two files draw the same mask.
///
/// A file is accepted if its bytes spell a library that is sound for its top and within the standard limits
/// ([`lvl_profile::Limits`]), and each coordinate as placed fits in 64 signed bits (own rule). `Same` is returned only
/// if both files are accepted and cover the same unit squares on every Layer, through all references. `Differ` names
/// the least Layer on which they differ, and the least square on it, by y and then x, that only one side covers. A
/// refusal names a file that isn't accepted, unless it is out of memory or a failed read.
pub fn compare_layouts<A: Read, B: Read>(
    alloc: Global,
    first: &mut A,
    second: &mut B,
    tops: &Tops,
) -> Result<Verdict, Refusal>
    ensures same { (xs ys : List ℕ) → A.remaining first.old ≡ Some xs → B.remaining second.old ≡ Some ys
        → result ≡ Ok Same
        → AreSame (file strict xs tops.now.first) (file strict ys tops.now.second) }
    ensures differ { (xs ys : List ℕ) → A.remaining first.old ≡ Some xs → B.remaining second.old ≡ Some ys
        → (layer : PlainLayer) (square : Square) (side : WhichSide) → result ≡ Ok (Differ layer square side)
        → AreDifferent (file strict xs tops.now.first) (file strict ys tops.now.second) layer square side }
    ensures first { IsReadBy First (input strict (A.remaining first.old) (A.remaining first.new)
        (A.read_errors first.old) (A.read_errors first.new) (given_name tops.now.first)) (refusal_of result) }
    ensures second { IsReadBy Second (input strict (B.remaining second.old) (B.remaining second.new)
        (B.read_errors second.old) (B.read_errors second.new) (given_name tops.now.second)) (refusal_of result) }
    ensures kept { (fault : FaultOfFile) → result ≡ Err (FileRefused First fault) → second.new ≡ second.old }
{
    compare_view(alloc, first, second, tops, &View::whole(alloc))
}

/// Whether two files draw the same mask under a view (own rule).
///
/// The second file covers a square on a Layer if its top covers it on some Layer that is mapped to this one. All pairs
/// of the map apply at once, and a Layer that isn't the source of a pair is mapped to itself. Only squares in the
/// window count. Both whole files must be accepted, whatever the view. `Differ` names the least Layer after mapping,
/// and the least square in the window. Without pairs and window the verdict is that of [`compare_layouts`]. Refusals
/// are the same, in the same order.
pub fn compare_view<A: Read, B: Read>(
    alloc: Global,
    first: &mut A,
    second: &mut B,
    tops: &Tops,
    view: &View,
) -> Result<Verdict, Refusal>
    ensures verdict { (xs ys : List ℕ) → A.remaining first.old ≡ Some xs → B.remaining second.old ≡ Some ys
        → IfOk result (IsViewVerdict view.now (file strict xs tops.now.first) (file strict ys tops.now.second)) }
    ensures whole { IsWhole view.now
        → (xs ys : List ℕ) → A.remaining first.old ≡ Some xs → B.remaining second.old ≡ Some ys
        → IfOk result (IsVerdict (file strict xs tops.now.first) (file strict ys tops.now.second)) }
    ensures first { IsReadBy First (input strict (A.remaining first.old) (A.remaining first.new)
        (A.read_errors first.old) (A.read_errors first.new) (given_name tops.now.first)) (refusal_of result) }
    ensures second { IsReadBy Second (input strict (B.remaining second.old) (B.remaining second.new)
        (B.read_errors second.old) (B.read_errors second.new) (given_name tops.now.second)) (refusal_of result) }
    ensures kept { (fault : FaultOfFile) → result ≡ Err (FileRefused First fault) → second.new ≡ second.old }
{
    let question = Question {
        tops,
        view,
        profile: Profile::STANDARD,
        why: false,
        units: false,
    };
    verdict_of(compare_files(alloc, first, second, &question))
}
