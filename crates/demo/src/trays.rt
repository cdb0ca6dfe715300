// Triangles put into a record tray and poured into a text tray.
use std::alloc::Global;
use std::io::Write;
use tray::{RecordTray, TextTray, Tray, Triangle, pour};

// An empty record tray with this number of places, over a list of one triangle again and again.
pub(crate) fn with_places(heap: Global, places: usize) -> anyhow::Result<RecordTray> {
    let blank = Triangle::new(0, 1, 2)?;
    Ok(RecordTray::new(vec![in heap; blank; places]?))
}

// Fills a small record tray, and pours it into bytes with room for two lines and some bytes more.
pub(crate) fn show(rt: &HostRuntime) -> anyhow::Result<()> {
    println!(rt; "A record tray of three places")?;
    let mut records = with_places(rt.alloc(), 3)?;
    put(rt, &mut records, 36, 14, 31)?;
    put(rt, &mut records, 39, 31, 14)?;
    put(rt, &mut records, 36, 36, 14)?;
    put(rt, &mut records, 36, 40, 14)?;
    put(rt, &mut records, 39, 14, 40)?;
    println!(rt; "Poured into a text tray over 60 bytes")?;
    let mut text = TextTray::new(vec![in rt.alloc(); b' '; 60]?);
    let poured = pour(&records, &mut text);
    let free = text.free();
    println!(rt; "  {poured} went over, free places: {free}")?;
    rt.stdout().write_all(text.text())?;
    text.empty();
    let held = text.held();
    let free = text.free();
    println!(rt; "  emptied: {held} held, free places: {free}")?;
    Ok(())
}

// Makes a triangle and puts it into a tray, and tells what came of it; the numbers are printed as they came, before they
// are a triangle.
fn put<T: Tray>(rt: &HostRuntime, tray: &mut T, p: u32, q: u32, r: u32) -> anyhow::Result<()> {
    print!(rt; "  ({p},{q},{r}): ")?;
    match Triangle::new(p, q, r) {
        Ok(triangle) => match tray.put(triangle) {
            Ok(()) => println!(rt; "put in, free places: {}", tray.free())?,
            Err(full) => println!(rt; "turned away, {full}")?,
        },
        Err(refusal) => println!(rt; "{refusal}")?,
    }
    Ok(())
}
