// Lines, and what was made of each before it is taken.
ghost use Rattle.std.specs.Prelude.{◌≡◌, ◌++◌, [], ◌∷◌, drop, None, OnOk, OnErr, IfSome, IfOk};

use jf_path::Memory;
use std::alloc::Global;
use std::marker::Model;

/// Lines in the order in which they are taken, each with a text that was made of it. All lines stand in one buffer and all texts
/// in another, so that a line more costs no heap block of its own.
#[derive(Drop)]
pub struct PreparedLines {
    lines: Vec<u8>,
    texts: Vec<u8>,
    // the number of bytes of each line, and of its text
    sizes: Vec<(usize, usize)>,
    // so many were taken; what is left begins at these places of the buffers
    taken: usize,
    line_start: usize,
    text_start: usize,
}

impl Model for PreparedLines {
    ghost use Rattle.std.specs.Prelude.{ℕ, List, drop};
    ghost use Rattle.jf_prepare.specs.PreparedLines.{sized_texts, AreSizesFrom};

    ghost Value = { List (List ℕ × List ℕ) };

    ghost view = { λ r. sized_texts (drop r.taken r.sizes.items) (drop r.line_start r.lines.items) (drop r.text_start r.texts.items) };

    ghost invariant = { λ r. AreSizesFrom r.taken r.line_start r.text_start r.sizes.items r.lines.items r.texts.items };
}

impl PreparedLines {
    /// No lines.
    pub fn new(alloc: Global) -> PreparedLines
        // The list is empty.
        ensures { result ≡ [] }
    {
        PreparedLines {
            lines: Vec::new(alloc),
            texts: Vec::new(alloc),
            sizes: Vec::new(alloc),
            taken: 0,
            line_start: 0,
            text_start: 0,
        }
    }

    /// No lines, with room for so many, and for so many bytes of lines and of texts.
    pub fn with_room(
        alloc: Global,
        count: usize,
        line_bytes: usize,
        text_bytes: usize,
    ) -> Result<PreparedLines, Memory>
        // After Ok, the list is empty.
        ensures { IfOk result (λ lines. lines ≡ []) }
    {
        Ok(PreparedLines {
            lines: Vec::with_capacity(alloc, line_bytes)?,
            texts: Vec::with_capacity(alloc, text_bytes)?,
            sizes: Vec::with_capacity(alloc, count)?,
            taken: 0,
            line_start: 0,
            text_start: 0,
        })
    }

    /// No lines, with room for those of all parts.
    pub fn with_room_for(alloc: Global, parts: &[PreparedLines]) -> Result<PreparedLines, Memory>
        // After Ok, the list is empty.
        ensures { IfOk result (λ lines. lines ≡ []) }
    {
        let mut count = 0usize;
        let mut line_bytes = 0usize;
        let mut text_bytes = 0usize;
        for part in parts {
            count = count.saturating_add(part.sizes.len());
            line_bytes = line_bytes.saturating_add(part.lines.len());
            text_bytes = text_bytes.saturating_add(part.texts.len());
        }
        PreparedLines::with_room(alloc, count, line_bytes, text_bytes)
    }

    /// The first line, and its text; `None` if there is no line.
    pub fn first(&self) -> Option<(&[u8], &[u8])>
        // Both are the first of the list.
        ensures found { IfSome result (λ first. self.now ≡ (first.0.now, first.1.now) ∷ drop 1 self.now) }
        // `None` means that the list is empty.
        ensures none { result ≡ None → self.now ≡ [] }
    {
        let (line_bytes, text_bytes) = *self.sizes.get(self.taken)?;
        let line = &self.lines[self.line_start..self.line_start + line_bytes];
        let text = &self.texts[self.text_start..self.text_start + text_bytes];
        Some((line, text))
    }

    /// Takes the first line away, if there is one.
    pub fn drop_first(&mut self)
        // The rest of the list is left.
        ensures { self.new ≡ drop 1 self.old }
    {
        if let Some(&(line_bytes, text_bytes)) = self.sizes.get(self.taken) {
            self.taken += 1;
            self.line_start += line_bytes;
            self.text_start += text_bytes;
        }
    }

    /// Appends a line and its text. If memory runs out, nothing is changed.
    pub fn push(&mut self, line: &[u8], text: &[u8]) -> Result<(), Memory>
        // After Ok, what was appended follows what was there.
        ensures ok { OnOk result (self.new ≡ self.old ++ (line.now, text.now) ∷ []) }
        // After an error the list is unchanged.
        ensures err { OnErr result (self.new ≡ self.old) }
    {
        append_all(
            &mut self.lines,
            &mut self.texts,
            &mut self.sizes,
            line,
            text,
            &[(line.len(), text.len())],
        )
    }

    /// Appends the lines of a part that are left. If memory runs out, nothing is changed.
    pub fn append(&mut self, part: &PreparedLines) -> Result<(), Memory>
        // After Ok, what was appended follows what was there.
        ensures ok { OnOk result (self.new ≡ self.old ++ part.now) }
        // After an error the list is unchanged.
        ensures err { OnErr result (self.new ≡ self.old) }
    {
        append_all(
            &mut self.lines,
            &mut self.texts,
            &mut self.sizes,
            &part.lines[part.line_start..],
            &part.texts[part.text_start..],
            &part.sizes[part.taken..],
        )
    }
}

// Appends to two buffers and to the sizes of what stands in them. If memory runs out, nothing is changed.
fn append_all(
    lines: &mut Vec<u8>,
    texts: &mut Vec<u8>,
    sizes: &mut Vec<(usize, usize)>,
    more_lines: &[u8],
    more_texts: &[u8],
    more_sizes: &[(usize, usize)],
) -> Result<(), Memory>
    ensures ok { OnOk result ((lines.new.items ≡ lines.old.items ++ more_lines.now) × (texts.new.items ≡ texts.old.items ++ more_texts.now) × (sizes.new.items ≡ sizes.old.items ++ more_sizes.now)) }
    ensures err { OnErr result ((lines.new.items ≡ lines.old.items) × (texts.new.items ≡ texts.old.items) × (sizes.new.items ≡ sizes.old.items)) }
{
    let line_end = lines.len();
    let text_end = texts.len();
    lines.extend_from_slice(more_lines)?;
    if texts.extend_from_slice(more_texts).is_err() {
        lines.truncate(line_end);
        return Err(Memory);
    }
    if sizes.extend_from_slice(more_sizes).is_err() {
        lines.truncate(line_end);
        texts.truncate(text_end);
        return Err(Memory);
    }
    Ok(())
}
