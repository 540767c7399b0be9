ghost use Rattle.ert_text.specs.Texts.{CopiesOver};

/// Copies into a buffer as much of a text as fits, and tells how long the text is.
pub(crate) fn copy_over(text: &[u8], buffer: &mut [u8]) -> usize
    ensures { CopiesOver text.now result buffer.old buffer.new }
{
    let count = text.len().min(buffer.len());
    buffer[..count].copy_from_slice(&text[..count]);
    text.len()
}
