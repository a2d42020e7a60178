//! What holds of messages, whatever program reads them.
ghost use Rattle.std.specs.Prelude.{◌≡◌, ◌++◌, false, codes};
ghost use Rattle.pol_http.specs.Answer.{answer_text, status_line};
ghost use Rattle.pol_http.specs.declared.answer.Body.TheVariants.{Nothing};
ghost use Rattle.pol_http.specs.declared.answer.TheConstants.{CONTINUE, INSUFFICIENT_STORAGE};
ghost use Rattle.pol_http.specs.declared.head.TheConstants.{BODY_LIMIT, FIELD_LIMIT, HEAD_LIMIT};
ghost use Rattle.pol_http.specs.Laws.{CutInOneWay, BeginsNoOther, RefusedInOneWay, StaysRefused};

/// Bytes are cut into messages and a rest in one way.
pub fn bytes_are_cut_in_one_way()
    ensures { CutInOneWay }
{}

/// No message is a proper prefix of another.
pub fn no_message_begins_another()
    ensures { BeginsNoOther }
{}

/// A rest is refused with one cause, and no message is refused.
pub fn bytes_are_refused_in_one_way()
    ensures { RefusedInOneWay }
{}

/// What is refused stays so, whatever bytes follow.
pub fn refusal_is_final()
    ensures { StaysRefused }
{}

/// The fixed texts are those of an interim answer, and of an answer without a body.
pub fn fixed_texts()
    ensures continues { CONTINUE.now ≡ status_line 100 ++ codes "\r\n" }
    ensures no_memory { INSUFFICIENT_STORAGE.now
        ≡ answer_text (record { status = 507; body = Nothing; close = false; head_only = false }) }
{}

/// A head has at most 64 fields and 16,384 bytes, and a body at most 16,777,216 bytes.
pub fn bounds_are_those()
    ensures fields { FIELD_LIMIT ≡ 64 }
    ensures head { HEAD_LIMIT ≡ 16384 }
    ensures body { BODY_LIMIT ≡ 16777216 }
{}
