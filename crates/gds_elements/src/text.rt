//! TEXT LAYER TEXTTYPE [PRESENTATION] [PATHTYPE] [WIDTH] [STRANS [MAG] [ANGLE]] XY STRING ENDEL: it
//! covers nothing. Its values aren't checked, except that it has one point.
ghost use Rattle.std.specs.Prelude.{◌≡◌, [], ◌∷◌, ◌≢◌, List, ℕ, None, OnOk, IfErr, length};
ghost use Rattle.gds_elements.specs.Types.{text, xy, string};
ghost use Rattle.gds_elements.specs.Values.{points};
ghost use Rattle.gds_elements.specs.Rec.{Rec};
ghost use Rattle.lvl_grammar.specs.inside.After.{after_first};
ghost use Rattle.gds_elements.specs.inside.Left.{left_after, EndsBy};
ghost use Rattle.gds_elements.specs.inside.Formed.{IsFormed};
ghost use Rattle.gds_elements.specs.inside.Text.{left, IsTextRead};
ghost use Rattle.lvl_profile.specs.declared.profile.Profile.{Profile as PlainProfile};
ghost use Rattle.gds_elements.specs.inside.Reading.{Takes, record_of};
ghost use Rattle.gds_elements.specs.inside.Misplaced.{breach};

use crate::element::Drawn;
use crate::fault::{ElementFault, ElementRule, breach};
use crate::order::{Next, only, out_of_order};
use crate::values::point_count;
use gds_records::record_type;
use lvl_refusal::Cause;

/// Which record comes next. If several may, the first of them gives the name.
#[derive(Clone, Copy)]
pub(crate) enum TextStage {
    Layer,
    TextType,
    Presentation,
    PathType,
    Width,
    Strans,
    Magnification,
    Angle,
    Points,
    Letters,
}

impl TextStage {
    /// What a record of this type leads to, if it comes next.
    fn after(self, kind: u8) -> Next<TextStage>
        ensures order { after_first (left self) kind ≡ left_after left result }
        ensures last { EndsBy string kind result }
    {
        match self {
            TextStage::Layer => only(kind, record_type::LAYER, Next::Goes(TextStage::TextType)),
            TextStage::TextType => only(
                kind,
                record_type::TEXTTYPE,
                Next::Goes(TextStage::Presentation),
            ),
            TextStage::Presentation => match kind {
                record_type::PRESENTATION => Next::Goes(TextStage::PathType),
                _ => after_presentation(kind),
            },
            TextStage::PathType => after_presentation(kind),
            TextStage::Width => after_path_type(kind),
            TextStage::Strans => after_width(kind),
            TextStage::Magnification => match kind {
                record_type::MAG => Next::Goes(TextStage::Angle),
                _ => after_magnification(kind),
            },
            TextStage::Angle => after_magnification(kind),
            TextStage::Points => only(kind, record_type::XY, Next::Goes(TextStage::Letters)),
            TextStage::Letters => only(kind, record_type::STRING, Next::Ends),
        }
    }
}

fn after_presentation(kind: u8) -> Next<TextStage>
    ensures order { after_first (left TextStage.PathType) kind ≡ left_after left result }
    ensures last { EndsBy string kind result }
{
    match kind {
        record_type::PATHTYPE => Next::Goes(TextStage::Width),
        _ => after_path_type(kind),
    }
}

fn after_path_type(kind: u8) -> Next<TextStage>
    ensures order { after_first (left TextStage.Width) kind ≡ left_after left result }
    ensures last { EndsBy string kind result }
{
    match kind {
        record_type::WIDTH => Next::Goes(TextStage::Strans),
        _ => after_width(kind),
    }
}

fn after_width(kind: u8) -> Next<TextStage>
    ensures order { after_first (left TextStage.Strans) kind ≡ left_after left result }
    ensures last { EndsBy string kind result }
{
    match kind {
        record_type::STRANS => Next::Goes(TextStage::Magnification),
        _ => only(kind, record_type::XY, Next::Goes(TextStage::Letters)),
    }
}

fn after_magnification(kind: u8) -> Next<TextStage>
    ensures order { after_first (left TextStage.Angle) kind ≡ left_after left result }
    ensures last { EndsBy string kind result }
{
    match kind {
        record_type::ANGLE => Next::Goes(TextStage::Points),
        _ => only(kind, record_type::XY, Next::Goes(TextStage::Letters)),
    }
}

/// The state of a text that is being read.
#[derive(Drop)]
pub(crate) struct Text {
    stage: TextStage,
}

impl Text {
    /// The state after the TEXT record.
    pub(crate) fn open() -> Text
        ensures { (r : Rec) → r.kind ≡ text → IsTextRead result (r ∷ []) }
    {
        Text {
            stage: TextStage::Layer,
        }
    }

    /// Takes the next record, unless it breaches a rule. `drawn` becomes what is drawn, once only ENDEL is missing.
    pub(crate) fn take(
        &mut self,
        kind: u8,
        payload: &[u8],
        drawn: &mut Option<Drawn>,
    ) -> Result<(), Cause<ElementFault>>
        requires formed { IsFormed kind payload.now }
        requires none { drawn.old ≡ None }
        ensures { (profile : PlainProfile) (piece : List Rec) (d : ℕ) → IsTextRead self.old piece
            → Takes IsTextRead self.new drawn.new profile piece (record_of kind d payload.now) result }
    {
        match self.stage.after(kind) {
            Next::Goes(stage) => {
                check_points(kind, payload)?;
                self.stage = stage;
                Ok(())
            }
            Next::Ends => {
                *drawn = Some(Drawn::Nothing);
                Ok(())
            }
            Next::Nowhere => Err(out_of_order(kind)),
        }
    }
}

fn check_points(kind: u8, payload: &[u8]) -> Result<(), Cause<ElementFault>>
    ensures allowed { OnOk result (kind ≡ xy → length (points payload.now) ≡ 1) }
    ensures refused { IfErr result (λ e. (e ≡ breach ElementRule.Points) × (kind ≡ xy)
        × (length (points payload.now) ≢ 1)) }
{
    if kind == record_type::XY && point_count(payload) != 1 {
        return Err(breach(ElementRule::Points));
    }
    Ok(())
}
