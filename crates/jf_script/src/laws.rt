// A law of replies: their texts tell them apart. The call does nothing.
ghost use Rattle.std.specs.Prelude.{◌≡◌, ℕ, ◌^◌, ◌<◌};
ghost use Rattle.jf_script.specs.Replies.{reply_text, IsInRange};
ghost use Rattle.jf_script.specs.declared.reply.Reply.{Reply};

/// Two equal lines of replies have the same number and the same reply.
pub fn reply_texts_are_distinct()
    ensures { (n m : ℕ) (r q : Reply) → n < 2 ^ 64 → m < 2 ^ 64 → IsInRange r → IsInRange q
        → reply_text n r ≡ reply_text m q → (n ≡ m) × (r ≡ q) }
{}
