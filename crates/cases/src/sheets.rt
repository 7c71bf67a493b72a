// Whole sheets, from their bytes to their listings' bytes, through the function that C calls.
ghost use Rattle.std.specs.Prelude.{◌≡◌, length};

use crate::print::{name, numbers};
use spardimple::plan_listing;
use std::io;

// Room for a listing of either sheet.
fn buffer() -> [u8; 1024]
    ensures { 1024 ≡ length result }
{
    [0u8; 1024]
}

// The refusal with what it carries; or a newline and the listing.
pub fn show_sheet(rt: &impl Print, title: &[u8], bytes: &[u8]) -> io::Result<()> {
    let mut buf = buffer();
    let said = plan_listing(bytes, &mut buf);
    let which = said / 4294967296;
    let carries = said % 4294967296;
    name(rt, title)?;
    if which < 100 {
        print!(rt; "\n")?;
        if carries <= 1024 {
            let n = carries as usize;
            rt.write_all(&buf[..n])?;
        }
        return Ok(());
    }
    numbers(rt, which - 100, carries)
}

// Document 01's whole sheet, and the same with a part that is not listed: `drv-a2` is not `drv-a`.
pub fn whole_sheets(rt: &impl Print) -> io::Result<()> {
    show_sheet(
        rt,
        b"document 01's sheet, from bytes",
        b"machine\t2\t1\ncost\t0\t0\t0\t0\t0\t0\t0\t0\t0\npart\tdrv-a\t6\t10\t10\t0\t0\t1\nfit\tpress\tdrv-a\nfit\tfeed\tdrv-a\nfit\tweld\tdrv-a\n",
    )?;
    show_sheet(
        rt,
        b"drv-a2 where only drv-a is listed",
        b"machine\t2\t1\ncost\t0\t0\t0\t0\t0\t0\t0\t0\t0\npart\tdrv-a\t6\t10\t10\t0\t0\t1\nfit\tpress\tdrv-a\nfit\tfeed\tdrv-a2\n",
    )?;
    show_sheet(rt, b"no sheet", b"")
}
