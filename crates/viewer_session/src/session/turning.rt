//! Turns: looks, cuts, and what they begin to send.

ghost use Rattle.std.specs.Prelude.{◌≡◌, ◌<◌, ◌≤◌, not, ◌==◌, true, false, is_some, List, ◌∷◌, length, IfOk, IfErr, IfNone, IfSome, None, Ok, Some};
ghost use Rattle.fault.specs.declared.kinds.Fault.TheVariants.{Gone};
ghost use Rattle.raster.specs.Screen.{IsWithin};
ghost use Rattle.reflect_core.specs.Asked.{AskedStands, LiesOn};
ghost use Rattle.reflect_core.specs.Sequential.{Begins};
ghost use Rattle.tiles.specs.Have.{HaveStands};
ghost use Rattle.tiles.specs.Touched.{Event, NewSize, WasCut, told_last};
ghost use Rattle.update_encoder.specs.Coming.{AnswerStands};
ghost use Rattle.viewer_session.specs.Found.{IsSentAs, IsWholeAnswer, answered_at, begun_bytes, has_newer, rings, told_or_answered, update_in};
ghost use Rattle.viewer_session.specs.Outgoing.{IsSmall, IsUpdateOf, size_and};
ghost use Rattle.viewer_session.specs.Session.{HasOnlyLooked, IsSameViewer, asked_now, is_ready, since_now, wants_cut, size_now, style_now, told_now, CutsAt, Turns};
ghost use Rattle.viewer_session.specs.Turn.{size_or_update, update_part};

use super::Session;
use crate::update::{Update, Whole};
use fault::Fault;
use raster::{Rect, Size};
use reflect_core::{Cut, ScreenSource};
use update_encoder::{Answer, Style};

/// A rectangle with no position.
const NOWHERE: Rect = Rect {
    x: 0,
    y: 0,
    w: 0,
    h: 0,
};

/// What a cut has that is news to a viewer.
#[derive(Clone, Copy)]
struct News {
    // Bells have become more.
    bell: bool,
    // The text is newer.
    text: bool,
}

impl Session {
    /// Whether there is reason to cut after a look that replied this number.
    fn has_reason(&self, looked: u64) -> bool
        ensures { result ≡ wants_cut self.now.asked looked }
    {
        self.asked.last_cut().unwrap_or(0) < looked
            || (self.asked.area().is_some() && self.asked.has_asked())
    }

    /// The size that the viewer was told last: at first that of the screen.
    fn told(&self) -> Size
        ensures { result ≡ told_now self.now }
    {
        self.told.unwrap_or(Size {
            width: self.width,
            height: self.height,
        })
    }

    /// The pending area, as far as it lies in the size that the viewer was told.
    fn asked_part(&self) -> Option<Rect>
        ensures value { result ≡ asked_now self.now }
        ensures within { LiesOn self.now.width self.now.height result }
    {
        let told = self.told();
        let area = self.asked.area()?;
        Some(area.clip(told.width, told.height))
    }

    /// The number of the viewer's last answer, where copies of the host may be passed on to it.
    fn since(&self) -> Option<u64>
        ensures { result ≡ since_now self.now }
    {
        if self.form.copies && self.choice.copy {
            self.asked.last_answer()
        } else {
            None
        }
    }

    /// The size of the host's screen at the cut, if the viewer is told it now.
    fn new_size(&self) -> Option<Size>
        ensures value { result ≡ size_now self.now }
        ensures small { IfSome result IsSmall }
    {
        let host = self.host?;
        self.asked.area()?;
        let size = self.out.cut().host_size.unwrap_or(host);
        let now = Size {
            width: size.width.min(self.width),
            height: size.height.min(self.height),
        };
        let is_new = self.choice.resizes && now != self.told();
        is_new.then_some(now)
    }

    /// The answer for this area at the cut, where it passes on a copy, or a tile of the area is still due. Then no area
    /// is pending any longer, and each tile of which all that the viewer knows of lies inside the area counts as sent.
    fn answer(&mut self, area: Option<Rect>, number: u64) -> Option<Answer>
        requires { LiesOn self.old.cut.width self.old.cut.height area }
        ensures others { self.new
            ≡ record self.old { asked = self.new.asked; have = self.new.have } }
        ensures last { self.new.asked.last ≡ self.old.asked.last }
        ensures stands { IfSome result (λ answer. AnswerStands answer self.old.cut) }
        ensures bytes { begun_bytes result self.old.cut
            ≡ update_part (update_in (style_now self.old) self.old.cut area) }
        ensures asked { (es : List Event) → AskedStands self.old.asked es
            → AskedStands self.new.asked
            (answered_at number (update_in (style_now self.old) self.old.cut area) es) }
        ensures have { (es : List Event) → told_last es ≡ self.old.told
            → HaveStands self.old.have es
            → HaveStands self.new.have
            (answered_at number (update_in (style_now self.old) self.old.cut area) es) }
    {
        let area = area?;
        let style = Style {
            runs: self.form.runs,
            format: self.format,
            choice: self.choice,
        };
        let answer = Answer::start(self.out.cut(), &area, style);
        if answer.is_empty(self.out.cut()) {
            return None;
        }
        self.asked.answered(number);
        self.have.keep(&area, self.told, number);
        self.answers = self.answers.saturating_add(1);
        Some(answer)
    }

    /// This size is told from now on: nothing is pending any longer, and no tile counts as sent.
    fn tell(&mut self, size: Size)
        ensures others { self.new
            ≡ record self.old { told = Some size; asked = self.new.asked; have = self.new.have } }
        ensures last { self.new.asked.last ≡ self.old.asked.last }
        ensures asked { (es : List Event) → AskedStands self.old.asked es
            → AskedStands self.new.asked (NewSize size ∷ es) }
        ensures have { (es : List Event) → HaveStands self.old.have es
            → HaveStands self.new.have (NewSize size ∷ es) }
    {
        self.told = Some(size);
        self.asked.resized();
        self.have.forget_all();
    }

    /// The size is told, where there is one, and otherwise this area is answered.
    fn tell_or_answer(
        &mut self,
        size: Option<Size>,
        area: Option<Rect>,
        number: u64,
    ) -> Option<Answer>
        requires { LiesOn self.old.cut.width self.old.cut.height area }
        ensures others { self.new ≡ record self.old {
          told = self.new.told;
          asked = self.new.asked;
          have = self.new.have;
        } }
        ensures last { self.new.asked.last ≡ self.old.asked.last }
        ensures stands { IfSome result (λ answer. AnswerStands answer self.old.cut) }
        ensures alone { is_some result ≡ true → size ≡ None }
        ensures bytes { size_and size (begun_bytes result self.old.cut)
            ≡ size_or_update size (update_in (style_now self.old) self.old.cut area) }
        ensures told { (es : List Event) → told_last es ≡ self.old.told
            → told_last (told_or_answered number size
            (update_in (style_now self.old) self.old.cut area) es) ≡ self.new.told }
        ensures asked { (es : List Event) → AskedStands self.old.asked es
            → AskedStands self.new.asked
            (told_or_answered number size (update_in (style_now self.old) self.old.cut area) es) }
        ensures have { (es : List Event) → told_last es ≡ self.old.told
            → HaveStands self.old.have es
            → HaveStands self.new.have
            (told_or_answered number size (update_in (style_now self.old) self.old.cut area) es) }
    {
        match size {
            None => self.answer(area, number),
            Some(size) => {
                self.tell(size);
                None
            }
        }
    }

    /// What the cut begins to send after its news: the size that the viewer is told, or else an answer for this area.
    fn begin_answer(&mut self, area: Option<Rect>, number: u64) -> (Option<Size>, Option<Answer>)
        requires { LiesOn self.old.cut.width self.old.cut.height area }
        ensures others { self.new ≡ record self.old {
          told = self.new.told;
          asked = self.new.asked;
          have = self.new.have;
        } }
        ensures last { self.new.asked.last ≡ self.old.asked.last }
        ensures size { result.0 ≡ size_now self.old }
        ensures small { IfSome result.0 IsSmall }
        ensures stands { IfSome result.1 (λ answer. AnswerStands answer self.old.cut) }
        ensures alone { is_some result.1 ≡ true → result.0 ≡ None }
        ensures bytes { size_and result.0 (begun_bytes result.1 self.old.cut)
            ≡ size_or_update result.0 (update_in (style_now self.old) self.old.cut area) }
        ensures told { (es : List Event) → told_last es ≡ self.old.told
            → told_last (told_or_answered number result.0
            (update_in (style_now self.old) self.old.cut area) es) ≡ self.new.told }
        ensures asked { (es : List Event) → AskedStands self.old.asked es
            → AskedStands self.new.asked (told_or_answered number result.0
            (update_in (style_now self.old) self.old.cut area) es) }
        ensures have { (es : List Event) → told_last es ≡ self.old.told
            → HaveStands self.old.have es
            → HaveStands self.new.have (told_or_answered number result.0
            (update_in (style_now self.old) self.old.cut area) es) }
    {
        let size = self.new_size();
        let answer = self.tell_or_answer(size, area, number);
        (size, answer)
    }

    /// The answer for this area written whole, where the viewer may be answered in ZRLE and would rather be. There is
    /// none where memory is refused, or where the compressor writes none.
    fn write_whole(&mut self, area: &Rect) -> Option<Whole>
        requires { IsWithin area.now self.old.cut.width self.old.cut.height }
        ensures others { self.new ≡ record self.old { begun = self.new.begun } }
        ensures some { IfSome result (IsWholeAnswer self.old self.new.begun area.now) }
        ensures none { IfNone result (self.new.begun ≡ self.old.begun) }
    {
        if !(self.form.zrle && self.choice.zrle) {
            return None;
        }
        let style = Style {
            runs: self.form.runs,
            format: self.format,
            choice: self.choice,
        };
        let cut = self.out.cut();
        let (begun, bytes) = self.compressor.write(cut, area, &style, self.stream_begun)?;
        self.stream_begun = begun;
        Some(Whole::new(bytes))
    }

    /// The answer for this area as it is sent: whole where it was written so, and otherwise as it was begun.
    fn compress(&mut self, area: Option<Rect>, answer: Option<Answer>) -> Option<Update>
        requires area { LiesOn self.old.cut.width self.old.cut.height area }
        requires stands { IfSome answer (λ answer. AnswerStands answer self.old.cut) }
        ensures others { self.new ≡ record self.old { begun = self.new.begun } }
        ensures stands { IfSome result (IsUpdateOf self.old.cut) }
        ensures sent { IsSentAs self.old self.new.begun area answer result }
    {
        let answer = answer?;
        let Some(area) = area else {
            return Some(Update::Runs(answer));
        };
        match self.write_whole(&area) {
            Some(whole) => Some(Update::Whole(whole)),
            None => Some(Update::Runs(answer)),
        }
    }

    /// The second half of a turn, after a look that replied `looked`. Where there is reason the source is cut, and what
    /// the cut brings begins to be sent: one Bell where Bells have become more since the last cut, the text where it is
    /// newer, and, where an area is pending, the host's size if the viewer takes sizes and was told another, or else an
    /// answer for that area: the copies of the host that are passed on, and the tiles that are still due behind them,
    /// where there are any. The first cut brings neither Bell nor text. The call answers whether anything is begun.
    ///
    /// It takes memory for an answer in ZRLE alone, and where that is refused the answer is written without. It fails
    /// where a source that may end has ended (`Gone`); then session and source are as they were.
    pub fn turn_at<S: ScreenSource>(&mut self, source: &mut S, looked: u64) -> Result<bool, Fault>
        requires ready { is_ready self.old ≡ true }
        requires screen { (S.width source.old ≡ self.old.width)
            × (S.height source.old ≡ self.old.height) }
        ensures same { IsSameViewer self.old self.new }
        ensures size { (S.width source.new ≡ S.width source.old)
            × (S.height source.new ≡ S.height source.old) }
        ensures grows { Begins (S.known source.old) (S.known source.new) }
        ensures idle { wants_cut self.old.asked looked ≡ false
            → (result ≡ Ok false) × (self.new ≡ self.old) × (source.new ≡ source.old) }
        ensures cuts { wants_cut self.old.asked looked ≡ true
            → IfOk result (λ _. CutsAt S.cuts source.old source.new self.old self.new
            (S.known source.new) (S.answered source.old) (S.answered source.new)) }
        ensures begun { IfOk result (λ begun. begun ≡ not (length self.new.unsent == 0)) }
        ensures err { IfErr result (λ fault.
            (fault ≡ Gone) × S.may_end × (self.new ≡ self.old) × (source.new ≡ source.old)) }
    {
        if !self.has_reason(looked) {
            return Ok(false);
        }
        let area = self.asked_part();
        let last = self.asked.last_cut();
        let bells = self.out.cut().bells;
        let since = self.since();
        let number = self
            .out
            .take(source, &area.unwrap_or(NOWHERE), &self.have, since)?;
        self.asked.was_cut(number);
        let news = news_of(self.out.cut(), last, bells);
        let (size, answer) = self.begin_answer(area, number);
        let update = self.compress(area, answer);
        self.out.begin(news.bell, news.text, size, update);
        Ok(!self.out.piece().is_empty())
    }

    /// One turn. It does nothing and answers false while bytes are unsent, before the hello is done, and after a fault.
    /// Otherwise it looks once and goes on as `turn_at`. Where that fails (`Gone`) the session is as it was, and the
    /// source as the look left it.
    pub fn turn<S: ScreenSource>(&mut self, source: &mut S) -> Result<bool, Fault>
        requires { (S.width source.old ≡ self.old.width) × (S.height source.old ≡ self.old.height) }
        ensures same { IsSameViewer self.old self.new }
        ensures size { (S.width source.new ≡ S.width source.old)
            × (S.height source.new ≡ S.height source.old) }
        ensures grows { Begins (S.known source.old) (S.known source.new) }
        ensures waits { is_ready self.old ≡ false
            → (result ≡ Ok false) × (self.new ≡ self.old) × (source.new ≡ source.old) }
        ensures turns { is_ready self.old ≡ true
            → IfOk result (λ _. Turns S.looks S.cuts source.old source.new self.old self.new
            (S.known source.new) (S.answered source.old) (S.answered source.new)) }
        ensures begun { is_ready self.old ≡ true
            → IfOk result (λ begun. begun ≡ not (length self.new.unsent == 0)) }
        ensures err { IfErr result (λ fault. (fault ≡ Gone) × S.may_end × (self.new ≡ self.old)
            × HasOnlyLooked S.looks source.old source.new) }
    {
        if !self.is_ready() {
            return Ok(false);
        }
        let looked = source.look();
        self.turn_at(source, looked)
    }
}

/// What a cut has that is news since the cut of this number, which showed this many Bells. At the first cut nothing is
/// news.
fn news_of(cut: &Cut, last: Option<u64>, bells: u64) -> News
    ensures bell { result.bell ≡ rings last bells cut.now.bells }
    ensures text { result.text ≡ has_newer last cut.now.text }
{
    let Some(last) = last else {
        return News {
            bell: false,
            text: false,
        };
    };
    News {
        bell: bells < cut.bells,
        text: match cut.text.number() {
            Some(number) => last < number,
            None => false,
        },
    }
}
