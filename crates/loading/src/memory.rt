// The lent memories of a fresh machine: the loops that fill them.
ghost use Rattle.std.specs.Prelude.{◌≡◌, ◌-◌, ◌*◌, ◌≤◌, ◌++◌, length, drop, replicate};
ghost use Rattle.model.specs.Image.{invalid_entry, invalid_entries};

// The entry of a page that is not resident: ppx 0, v 0, r and w from its rights byte.
fn entry(right: u32) -> u32
    ensures { result ≡ invalid_entry right }
{
    4 * (right % 2) + 2 * (right / 2 % 2)
}

// "main the invalid entries"; pto is 0, so the table begins at 0.
fn put_entries(rights: &[u8], main: &mut [u8])
    requires { 4 * length rights.now ≤ length main.old }
    ensures { main.new ≡ invalid_entries rights.now ++ drop (4 * length rights.now) main.old }
{
    for (x, &right) in rights.iter().enumerate() {
        words::put_number::<4>(main, 4 * x, entry(u32::from(right)));
    }
}

// "and zeros elsewhere"
pub(crate) fn fill_main(rights: &[u8], main: &mut [u8])
    requires { 4 * length rights.now ≤ length main.old }
    ensures { main.new
        ≡ invalid_entries rights.now ++ replicate (length main.old - 4 * length rights.now) 0 }
{
    main.fill(0);
    put_entries(rights, main);
}

// The image's pages, one behind the other: "Swap gets the pages"; sbase is 0, so page x comes to swap page x. The plain engine's memory
// is filled so too.
pub fn fill_pages(pages: &[u8], ptl: u32, memory: &mut [u8])
    requires { (length pages.now ≡ 4096 * ptl) × (length memory.old ≡ 4096 * ptl) }
    ensures { memory.new ≡ pages.now }
{
    let n = 4096 * (ptl as usize);
    words::copy(&pages[..n], &mut memory[..n]);
}
