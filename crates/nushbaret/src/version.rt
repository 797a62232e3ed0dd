// The version of the library.
ghost use Rattle.std.specs.Prelude.{◌≡◌, ◌++◌, ◌∷◌, ◌<◌, ◌≤◌, drop, length, suc};

use release_version::VERSION;

/// Returns the length of the version's text. Writes the text and a 0 at the beginning of the room
/// if they fit; otherwise the room stays as it was.
#[unsafe(no_mangle)]
pub extern "C" fn nushbaret_version(room: &mut [u8]) -> usize
    ensures long { result ≡ length VERSION.now }
    ensures text { let long = length VERSION.now in
        long < length room.old → room.new ≡ VERSION.now ++ 0 ∷ drop (suc long) room.old }
    ensures short { length room.old ≤ length VERSION.now → room.new ≡ room.old }
{
    let text = VERSION.as_bytes();
    let length = text.len();
    if room.len() > length {
        let (start, _) = room.split_at_mut(length);
        start.copy_from_slice(text);
        room[length] = 0;
    }
    length
}
