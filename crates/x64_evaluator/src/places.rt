// Where labels stand.

ghost use Rattle.std.specs.Prelude.{◌≡◌, ◌≤◌, true, length, position};
ghost use Rattle.x64_syntax.specs.Programs.{labels_from};
ghost use Rattle.x64_meaning.specs.Run.{is_label};

use x64_syntax::Item;

fn is_label(item: &Item, label: u32) -> bool
    ensures { result ≡ is_label label item.now }
{
    match item {
        Item::Label(other) => label == *other,
        _ => false,
    }
}

// The place of a label, looked for from the last item back to a label that isn't above it.
fn place_back(items: &[Item], label: u32) -> Option<usize>
    requires { labels_from 0 items.now ≡ true }
    ensures { result ≡ position (is_label label) items.now }
{
    for k in (0..items.len()).rev() {
        if let Item::Label(other) = &items[k] {
            if *other == label {
                return Some(k);
            }
            if *other < label {
                return None;
            }
        }
    }
    None
}

fn place_ahead(items: &[Item], label: u32) -> Option<usize>
    ensures { result ≡ position (is_label label) items.now }
{
    items.iter().position(|item| is_label(item, label))
}

/// The place of a label, of a jump at this position. Since labels are in order, only the items between the two and back
/// to the last label before them are looked at.
pub(crate) fn place(items: &[Item], at: usize, label: u32) -> Option<usize>
    requires order { labels_from 0 items.now ≡ true }
    requires within { at ≤ length items.now }
    ensures { result ≡ position (is_label label) items.now }
{
    let (before, ahead) = items.split_at(at);
    match place_back(before, label) {
        Some(k) => Some(k),
        None => Some(at + place_ahead(ahead, label)?),
    }
}
