//! Contents in buffers that are used again and again. The buffer that was freed last is the next one used, so the
//! memory that is touched follows the most contents that were ever held at once.
ghost use Rattle.std.specs.Prelude.{◌≡◌, ◌<◌, ◌≤◌, [], ◌∷◌, ◌++◌, length, slice_set, All};
ghost use Rattle.std.specs.Vec.{vec_capacity};
ghost use Rattle.stores.specs.Pool.{grown_contents, grown_free};

use rtpwire::{Carried, Content};

/// Makes one buffer more, where no number is free. A buffer is blanked here, as it is first used.
pub fn grow(contents: &mut Vec<Content>, free: &mut Vec<u16>)
    requires room { free.old.items ≡ [] → length contents.old.items < vec_capacity contents.old }
    requires limit { free.old.items ≡ [] → length contents.old.items < 8192 }
    requires free_room { 0 < vec_capacity free.old }
    ensures contents { contents.new.items ≡ grown_contents contents.old.items free.old.items }
    ensures free { free.new.items ≡ grown_free contents.old.items free.old.items }
    ensures contents_capacity { vec_capacity contents.new ≡ vec_capacity contents.old }
    ensures free_capacity { vec_capacity free.new ≡ vec_capacity free.old }
{
    if free.is_empty() {
        free.push_reserved(contents.len() as u16);
        contents.push_reserved(Content::blank());
    }
}

/// Fills the buffer that was freed last, and answers its number, which is free no longer.
pub fn fill_free(contents: &mut Vec<Content>, free: &mut Vec<u16>, carried: &Carried<'_>) -> u16
    requires some { 0 < length free.old.items }
    requires known { All (λ n. n < length contents.old.items) free.old.items }
    ensures number { free.old.items ≡ free.new.items ++ result ∷ [] }
    ensures contents { contents.new.items ≡ slice_set contents.old.items result carried.now }
    ensures contents_capacity { vec_capacity contents.new ≡ vec_capacity contents.old }
    ensures free_capacity { vec_capacity free.new ≡ vec_capacity free.old }
{
    let number = free.pop().unwrap();
    contents[usize::from(number)].fill(carried);
    number
}
