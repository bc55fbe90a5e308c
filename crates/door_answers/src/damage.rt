// What comes with 13 (RULES, Numbers the desk lives by): "with stream, place and reason".
ghost use Rattle.std.specs.Prelude.{◌≡◌};
ghost use Rattle.leaves.specs.Refusal.{refused};
ghost use Rattle.door_answers.specs.Answers.{damage_in};

use leaves::refusal::Refusal;

// The reason that comes with a refusal, or what is held.
pub fn reason_in(refusal: Refusal, held: u64) -> u64
    ensures { result ≡ damage_in held 2 (refused refusal) }
{
    if let Refusal::Damaged { reason, .. } = refusal {
        reason.number()
    } else {
        held
    }
}

// The stream, place and reason that come with a refusal, over what is held.
pub fn hand_damage(refusal: Refusal, stream: &mut u64, place: &mut u64, reason: &mut u64)
    ensures streams { stream.new ≡ damage_in stream.old 0 (refused refusal) }
    ensures places { place.new ≡ damage_in place.old 1 (refused refusal) }
    ensures reasons { reason.new ≡ damage_in reason.old 2 (refused refusal) }
{
    if let Refusal::Damaged {
        stream: s,
        place: p,
        reason: r,
    } = refusal
    {
        *stream = s;
        *place = p;
        *reason = r.number();
    }
}
