//! From the body of a frame to its reply and its new record.

ghost use Rattle.std.specs.Prelude.{◌≡◌, ◌<◌, ◌+◌, ◌++◌, ◌∷◌, ◌==◌, [], List, IfOk, length};
ghost use Rattle.wire_in.specs.Spelling.{InRange};
ghost use Rattle.wire_in.specs.declared.record.Record.{Record};
ghost use Rattle.market_core.specs.AdmissionState as admissions;
ghost use Rattle.standby_core.specs.Rounds.{part_in, refusal_by, new_by, reply_with, unless};

use crate::decoding::get_part;
use crate::reading::admit;
use crate::round::{Reply, Round};
use market_core::Admission;
use wire_in::{Record, Refusal};

/// The type of a Part.
const PART: u8 = 0xa1;

/// The number and the record of the Part in a body, or why its frame is refused whatever is kept.
fn part_in(body: &[u8]) -> Result<(u64, Record), Refusal>
    ensures exact { result ≡ part_in body.now }
    ensures range { IfOk result (λ part. InRange part.1) }
{
    if body.is_empty() {
        return Err(Refusal::BadLength);
    }
    if body[0] != PART {
        return Err(Refusal::UnknownType);
    }
    match get_part(body) {
        Ok(part) => Ok(part),
        Err(_) => Err(Refusal::BadLength),
    }
}

/// Whether the record of this number comes next behind so many.
fn is_next(kept: u64, number: u64) -> bool
    ensures { result ≡ (number == kept + 1) }
{
    number > kept && number - kept == 1
}

/// Replies to the frame at a place whose record comes next: it is new where it is admissible.
fn judge_record(admission: &mut Admission, round: &mut Round, place: u64, x: &Record)
    requires room { length round.old.replies < round.old.most }
    requires range { InRange x.now }
    ensures replies { round.new.replies ≡ round.old.replies ++ reply_with place admission.new.count (admissions.refusal_of admission.old x.now) ∷ [] }
    ensures records { round.new.records ≡ round.old.records ++ unless (admissions.refusal_of admission.old x.now) x.now }
    ensures most { round.new.most ≡ round.old.most }
    ensures stands { (admitted : List Record) → admissions.Stands admission.old admitted
        → admissions.Stands admission.new (unless (admissions.refusal_of admission.old x.now) x.now ++ admitted) }
    ensures count { admission.new.count ≡ admission.old.count + length (unless (admissions.refusal_of admission.old x.now) x.now) }
    ensures capacity { admission.new.capacity ≡ admission.old.capacity }
{
    if let Some(refusal) = admission.verdict(x) {
        round.push_reply(Reply::Refused { place, refusal });
        return;
    }
    admit(admission, x);
    round.push(Reply::Have(admission.count()), x);
}

/// Replies to the frame of a body at a place, and admits its record where it is new.
pub fn judge(admission: &mut Admission, round: &mut Round, place: u64, body: &[u8])
    requires room { length round.old.replies < round.old.most }
    ensures replies { round.new.replies ≡ round.old.replies ++ reply_with place admission.new.count (refusal_by admission.old (part_in body.now)) ∷ [] }
    ensures records { round.new.records ≡ round.old.records ++ new_by admission.old (part_in body.now) }
    ensures most { round.new.most ≡ round.old.most }
    ensures stands { (admitted : List Record) → admissions.Stands admission.old admitted
        → admissions.Stands admission.new (new_by admission.old (part_in body.now) ++ admitted) }
    ensures count { admission.new.count ≡ admission.old.count + length (new_by admission.old (part_in body.now)) }
    ensures capacity { admission.new.capacity ≡ admission.old.capacity }
{
    match part_in(body) {
        Err(refusal) => round.push_reply(Reply::Refused { place, refusal }),
        Ok((number, x)) => {
            if is_next(admission.count(), number) {
                judge_record(admission, round, place, &x);
            } else {
                round.push_reply(Reply::Have(admission.count()));
            }
        }
    }
}
