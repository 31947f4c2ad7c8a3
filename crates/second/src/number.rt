// Words of an array, and the front of a list.
ghost use Rattle.std.specs.Prelude.{◌≡◌, take};
ghost use Rattle.second.specs.Desk.{word_at, with_word};

// The first n items, or all.
pub fn first<T>(items: &[T], n: usize) -> &[T]
    ensures { result.now ≡ take n items.now }
{
    &items[..n.min(items.len())]
}

// The word so far behind a place. Arrays of 640 words hold all states; places past the end begin anew.
pub fn at(words: &[u64; 640], part: u64, i: u64) -> u64
    ensures { result ≡ word_at words.now part i }
{
    words[((part % 640 + i % 640) % 640) as usize]
}

pub fn put(words: &mut [u64; 640], part: u64, i: u64, x: u64)
    ensures { words.new ≡ with_word words.old part i x }
{
    words[((part % 640 + i % 640) % 640) as usize] = x;
}
