// A good text damaged at each byte in turn: a byte of each kind in its place, the byte left out, and
// the byte doubled.
ghost use Rattle.std.specs.Prelude.{◌≡◌, ◌≤◌, ◌*◌, length};
ghost use Rattle.test_cells.specs.Bounded.{sum, product};

const MOST: usize = 64;

// How often each byte is damaged.
fn damages(kinds: &[u8]) -> usize
    ensures { result ≡ sum (length kinds.now) 2 }
{
    test_cells::add(kinds.len(), 2)
}

// How many damaged texts there are.
pub fn texts(text: &[u8], kinds: &[u8]) -> usize
    ensures { result ≡ product (length text.now) (sum (length kinds.now) 2) }
{
    test_cells::mul(text.len(), damages(kinds))
}

// Byte p of the text that is damaged at byte i.
fn byte(text: &[u8], kinds: &[u8], i: usize, damage: usize, p: usize) -> u8 {
    if p == i && damage < kinds.len() {
        return kinds[damage];
    }
    let after = test_cells::pick(damage == kinds.len(), test_cells::add(p, 1), p);
    let doubled = damage > kinds.len() && p > i;
    let from = test_cells::pick(doubled, test_cells::less_one(p), after);
    test_cells::byte(text, test_cells::pick(p < i, p, from))
}

fn damaged(text: &[u8], kinds: &[u8], i: usize, damage: usize) -> [u8; MOST] {
    let mut bytes = [0u8; MOST];
    for p in 0..MOST {
        bytes[p] = byte(text, kinds, i, damage, p);
    }
    bytes
}

fn length(text: &[u8], kinds: &[u8], damage: usize) -> usize {
    let fewer = test_cells::pick(
        damage == kinds.len(),
        test_cells::less_one(text.len()),
        text.len(),
    );
    test_cells::add(fewer, (damage > kinds.len()) as usize)
}

// How many of the damaged texts agree, as is told of each by whether all before it did.
pub fn agreed<F: Fn(&[u8], bool) -> bool>(text: &[u8], kinds: &[u8], agrees: F) -> usize
    requires { F.IsAlwaysCallable agrees }
    ensures { result ≤ length text.now * sum (length kinds.now) 2 }
{
    let damages = damages(kinds);
    let mut agreed = 0;
    for i in 0..text.len() {
        for damage in 0..damages {
            let bytes = damaged(text, kinds, i, damage);
            let own = test_cells::between(&bytes, 0, length(text, kinds, damage));
            let same = agrees(own, agreed == test_cells::place(i, damages, damage));
            agreed = test_cells::add(agreed, same as usize);
        }
    }
    agreed
}
