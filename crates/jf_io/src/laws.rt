// Laws of lines, each as a call that does nothing.
ghost use Rattle.std.specs.Prelude.{◌≡◌, ℕ, List, [], ◌∷◌, ◌++◌, length, take};
ghost use Rattle.jf_io.specs.Lines.{lines, one_line, whole_lines};

/// Bytes without a line feed are one line, or no line if there are no bytes.
pub fn bytes_without_feed_are_one_line()
    // If `bytes` has no line feed, its lines are `bytes` as one line, or none if it is empty.
    ensures { (bytes : List ℕ) → whole_lines bytes ≡ 0 → lines bytes ≡ one_line bytes }
{}

/// The first line ends at the first line feed.
pub fn first_line_ends_at_first_feed()
    // If `line` has no line feed, then `line`, a line feed and `rest` have the line `line`, then the lines of `rest`.
    ensures { (line rest : List ℕ) → whole_lines line ≡ 0 → lines (line ++ 10 ∷ rest) ≡ line ∷ lines rest }
{}

/// After a line feed the lines are those of the bytes that follow.
pub fn lines_go_on_after_a_feed()
    // The lines of `front`, a line feed and `rest` are those of `front` with its line feed, then those of `rest`.
    ensures { (front rest : List ℕ) → lines (front ++ 10 ∷ rest) ≡ lines (front ++ 10 ∷ []) ++ lines rest }
{}

/// Bytes that end with a line feed have as many lines as line feeds.
pub fn whole_lines_count_lines()
    // `front` with a line feed at its end has as many lines as line feeds.
    ensures { (front : List ℕ) → length (lines (front ++ 10 ∷ [])) ≡ whole_lines (front ++ 10 ∷ []) }
{}

/// The lines that end with a line feed are those of the bytes up to the last line feed.
pub fn whole_lines_come_first()
    // If `rest` has no line feed, the whole lines are those of `front` with its line feed.
    ensures { (front rest : List ℕ) → whole_lines rest ≡ 0
        → take (whole_lines (front ++ 10 ∷ rest)) (lines (front ++ 10 ∷ rest)) ≡ lines (front ++ 10 ∷ []) }
{}
