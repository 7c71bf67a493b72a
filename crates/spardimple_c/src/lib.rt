// The C functions: `include/spardimple.h`. Each calls the function of its name in `spardimple`, which says what the answer is, and has its contract.
//
// A slice comes from C as a pointer and then a length. The archive that `rt lib` makes of this crate is handed out as libspardimple.a.
#![tactic(auto)]

ghost use Rattle.std.specs.Prelude.{◌≡◌, length};
ghost use Rattle.spardimple.specs.Numbers.{verdict_number};
ghost use Rattle.spardimple.specs.Sheets.{listing_number, listing_left};
ghost use Rattle.spardimple.specs.Diffs.{diff_number, diff_left};
ghost use Rattle.spardimple.specs.Whys.{why_records_number, why_records_left, why_core_number, why_core_left, demand_number};

/// The verdict on lent records and costs.
#[unsafe(no_mangle)]
pub extern "C" fn verdict(records: &[u8], costs: &[u8]) -> u64
    ensures exact { result ≡ verdict_number records.now costs.now }
{
    spardimple::verdict(records, costs)
}

/// A sheet's listing, written into a lent buffer.
#[unsafe(no_mangle)]
pub extern "C" fn plan_listing(sheet: &[u8], listing: &mut [u8]) -> u64
    ensures exact { (result ≡ listing_number sheet.now (length listing.old)) × (listing.new ≡ listing_left sheet.now listing.old) }
{
    spardimple::plan_listing(sheet, listing)
}

/// Why the verdict on lent records is as it is, written into a lent buffer.
#[unsafe(no_mangle)]
pub extern "C" fn why_records(records: &[u8], costs: &[u8], out: &mut [u8]) -> u64
    ensures exact { (result ≡ why_records_number records.now costs.now (length out.old)) × (out.new ≡ why_records_left records.now costs.now out.old) }
{
    spardimple::why_records(records, costs, out)
}

/// The same of a core, from 1, of a sheet's plan.
#[unsafe(no_mangle)]
pub extern "C" fn why_core(sheet: &[u8], core: u64, out: &mut [u8]) -> u64
    ensures exact { (result ≡ why_core_number sheet.now core (length out.old)) × (out.new ≡ why_core_left sheet.now core out.old) }
{
    spardimple::why_core(sheet, core, out)
}

/// The demand of lent records as one core, within a length of time.
#[unsafe(no_mangle)]
pub extern "C" fn demand_at(records: &[u8], costs: &[u8], t: u64) -> u64
    ensures exact { result ≡ demand_number records.now costs.now t }
{
    spardimple::demand_at(records, costs, t)
}

/// Two sheets' plans side by side, written into a lent buffer.
#[unsafe(no_mangle)]
pub extern "C" fn diff_listing(sheet1: &[u8], sheet2: &[u8], out: &mut [u8]) -> u64
    ensures exact { (result ≡ diff_number sheet1.now sheet2.now (length out.old)) × (out.new ≡ diff_left sheet1.now sheet2.now out.old) }
{
    spardimple::diff_listing(sheet1, sheet2, out)
}
