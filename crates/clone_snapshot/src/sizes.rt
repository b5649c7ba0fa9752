ghost use Rattle.std.specs.Prelude.{◌≡◌, ◌-◌, ◌<◌, ◌≤◌, ◌^◌};
ghost use Rattle.std.specs.Int.{div_ceil};
ghost use Rattle.clone_base.specs.declared.limits.TheConstants.{LSN_LIMIT};
ghost use Rattle.clone_snapshot.specs.declared.sizes.TheConstants.{CHUNK_PAGES, CHUNK_BYTES};

/// How many pages a chunk has at most.
pub const CHUNK_PAGES: u32 = 64;

/// How many bytes of redo a chunk has at most.
pub const CHUNK_BYTES: u32 = 65_536;

/// How many chunks a list of so many pages has in PAGE COPY.
pub fn page_chunks(pages: usize) -> u32
    requires { div_ceil pages CHUNK_PAGES < 2 ^ 32 }
    ensures { result ≡ div_ceil pages CHUNK_PAGES }
{
    pages.div_ceil(CHUNK_PAGES as usize) as u32
}

/// How many chunks the redo from one LSN up to another has.
pub fn redo_chunks(start: u64, end: u64) -> u32
    requires ordered { start ≤ end }
    requires in_log { end < LSN_LIMIT }
    ensures { result ≡ div_ceil (end - start) CHUNK_BYTES }
{
    (end - start).div_ceil(CHUNK_BYTES as u64) as u32
}
