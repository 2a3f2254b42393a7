//! A buffer of the caller, which gets a text.
ghost use Rattle.std.specs.Prelude.{◌≡◌};
ghost use Rattle.asl_c_memory.specs.Buffer.{Holds};

/// Puts the text at the front of the buffer, as far as there is room.
pub fn put_front(text: &[u8], buffer: &mut [u8])
    ensures { Holds text.now buffer.old buffer.new }
{
    let room = buffer.len();
    if text.len() <= room {
        buffer[..text.len()].copy_from_slice(text);
    } else {
        buffer.copy_from_slice(&text[..room]);
    }
}
