// An open descriptor by its number: std reads none so, the kit's `io` does.
ghost use Rattle.std.specs.Prelude.{◌≤◌, length};

// Fills the buffer from an open descriptor; how many bytes there were. None come from one that is closed or cannot be read.
pub fn read_descriptor(fd: i32, buf: &mut [u8]) -> usize
    ensures { result ≤ length buf.new }
{
    io::read_full(fd, buf)
}
