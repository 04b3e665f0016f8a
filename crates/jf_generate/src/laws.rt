// A law of replies: those that count as refused are refusals. The call does nothing.
ghost use Rattle.std.specs.Prelude.{◌≡◌, ℕ, ◌^◌, ◌<◌};
ghost use Rattle.jf_script.specs.Replies.{reply_text, is_refusal};
ghost use Rattle.jf_script.specs.declared.reply.Reply.{Reply};
ghost use Rattle.jf_generate.specs.Reports.{is_refused};

/// The text of a reply counts as refused exactly if the reply is a refusal.
pub fn refusals_are_reported()
    // So it is for every reply, and every number of a line below 2^64.
    ensures { (n : ℕ) (r : Reply) → n < 2 ^ 64 → is_refused (reply_text n r) ≡ is_refusal r }
{}
