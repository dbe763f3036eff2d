//! A picture of times, an SVG text: bars of the index and of the map, side by side.

use crate::request::By;
use anyhow::Result;
use std::fmt::Display;
use std::num::nearest_u64_to_f64;

// What says that a text is SVG.
const SVG: &str = "http://www.w3.org/2000/svg";

// Pixels: where the axes begin, how wide a column and one of its bars are, and how high the highest bar may be.
const LEFT: u64 = 90;

const TOP: u64 = 70;

const COLUMN: u64 = 130;

const BAR: u64 = 44;

const HIGH: u64 = 260;

// Where the axis at the bottom is.
const BOTTOM: u64 = TOP + HIGH;

const INDEX_FILL: &str = "#2f6db3";

const MAP_FILL: &str = "#b3652f";

/// A value of what is varied, and nanoseconds an operation at it.
#[derive(Clone, Copy)]
pub struct Column {
    pub value: u64,
    pub index: f64,
    pub map: f64,
}

/// Prints the picture of some columns.
pub fn print_chart<R: Print>(
    rt: &R,
    heading: impl Display + Drop,
    by: By,
    columns: &[Column],
) -> Result<()> {
    let wide = COLUMN.saturating_mul(columns.len() as u64);
    let scale = scale_of(columns);
    print_head(rt, heading, wide)?;
    print_grid(rt, wide, scale)?;
    for (place, column) in columns.iter().enumerate() {
        let left = COLUMN.saturating_mul(place as u64).saturating_add(LEFT);
        print_column(rt, left, by, *column, scale)?;
    }
    print_axes(rt, wide, by)?;
    println!(rt; "</svg>")?;
    Ok(())
}

/// How the picture's lines are apart, in nanoseconds, and how many of them there are.
#[derive(Clone, Copy)]
struct Scale {
    step: f64,
    lines: u64,
}

impl Scale {
    // The pixels of so many nanoseconds.
    fn pixels(self, nanoseconds: f64) -> f64 {
        nanoseconds / (self.step * nearest_u64_to_f64(self.lines)) * nearest_u64_to_f64(HIGH)
    }
}

// Five lines, 1, 2 or 5 by a power of ten apart, over the highest bar.
fn scale_of(columns: &[Column]) -> Scale {
    let most = columns
        .iter()
        .fold(0.0, |most, column| column.index.max(column.map).max(most));
    let mut step = 1.0;
    for place in 0..60u64 {
        if step * 5.0 >= most {
            break;
        }
        step *= if place % 3 == 1 { 2.5 } else { 2.0 };
    }
    Scale { step, lines: 5 }
}

// The heading, and which bars are whose.
fn print_head<R: Print>(rt: &R, heading: impl Display + Drop, wide: u64) -> Result<()> {
    let width = wide.saturating_add(LEFT + 30).max(620);
    let height = BOTTOM + 60;
    println!(rt;
        "<svg xmlns=\"{SVG}\" width=\"{width}\" height=\"{height}\" font-family=\"sans-serif\" font-size=\"13\">"
    )?;
    println!(rt; "<rect width=\"100%\" height=\"100%\" fill=\"#ffffff\"/>")?;
    println!(rt; "<text x=\"20\" y=\"24\" font-weight=\"bold\">{heading}</text>")?;
    print_legend(rt, LEFT, "index", INDEX_FILL)?;
    print_legend(rt, LEFT + 90, "std's BTreeMap, one thread", MAP_FILL)
}

fn print_legend<R: Print>(rt: &R, x: u64, words: &str, fill: &str) -> Result<()> {
    let words_x = x.saturating_add(18);
    println!(rt; "<rect x=\"{x}\" y=\"38\" width=\"12\" height=\"12\" fill=\"{fill}\"/>")?;
    println!(rt; "<text x=\"{words_x}\" y=\"49\">{words}</text>")?;
    Ok(())
}

// The lines across, with their nanoseconds.
fn print_grid<R: Print>(rt: &R, wide: u64, scale: Scale) -> Result<()> {
    let right = LEFT.saturating_add(wide);
    for line in 1..=scale.lines {
        let nanoseconds = nearest_u64_to_f64(line) * scale.step;
        let y = nearest_u64_to_f64(BOTTOM) - scale.pixels(nanoseconds);
        println!(rt; "<path d=\"M{LEFT} {y:.1}H{right}\" stroke=\"#d9dfe6\"/>")?;
        println!(rt;
            "<text x=\"{}\" y=\"{:.1}\" text-anchor=\"end\">{nanoseconds:.0}</text>",
            LEFT - 8,
            y + 4.0
        )?;
    }
    Ok(())
}

/// A bar of a column: whose time it is, where it stands, how long that is, and its colour.
#[derive(Clone, Copy)]
struct Bar {
    owner: &'static str,
    x: u64,
    nanoseconds: f64,
    fill: &'static str,
}

// Both bars of a value.
fn print_column<R: Print>(rt: &R, left: u64, by: By, column: Column, scale: Scale) -> Result<()> {
    let Column { value, index, map } = column;
    let bars = [
        Bar {
            owner: "index",
            x: left.saturating_add(COLUMN / 2 - BAR - 2),
            nanoseconds: index,
            fill: INDEX_FILL,
        },
        Bar {
            owner: "map",
            x: left.saturating_add(COLUMN / 2 + 2),
            nanoseconds: map,
            fill: MAP_FILL,
        },
    ];
    for bar in bars {
        print_bar(rt, by, value, bar, scale)?;
    }
    println!(rt;
        "<text x=\"{}\" y=\"{}\" text-anchor=\"middle\">{value}</text>",
        left.saturating_add(COLUMN / 2),
        BOTTOM + 20
    )?;
    Ok(())
}

// A bar with its number above it, and with its words for a pointer that rests on it.
fn print_bar<R: Print>(rt: &R, by: By, value: u64, bar: Bar, scale: Scale) -> Result<()> {
    let Bar {
        owner,
        x,
        nanoseconds,
        fill,
    } = bar;
    let words = by.words();
    let high = scale.pixels(nanoseconds);
    let y = nearest_u64_to_f64(BOTTOM) - high;
    println!(rt; "<g><title>{owner}, {words} {value}: {nanoseconds:.1} ns</title>")?;
    println!(rt;
        "<rect x=\"{x}\" y=\"{y:.1}\" width=\"{BAR}\" height=\"{high:.1}\" fill=\"{fill}\"/>"
    )?;
    println!(rt;
        "<text x=\"{}\" y=\"{:.1}\" text-anchor=\"middle\">{nanoseconds:.0}</text></g>",
        x.saturating_add(BAR / 2),
        y - 4.0
    )?;
    Ok(())
}

// The axes, over the bars, and what they are of.
fn print_axes<R: Print>(rt: &R, wide: u64, by: By) -> Result<()> {
    println!(rt; "<path d=\"M{LEFT} {TOP}V{BOTTOM}h{wide}\" fill=\"none\" stroke=\"#333333\"/>")?;
    println!(rt;
        "<text x=\"{}\" y=\"{}\" text-anchor=\"middle\">{}</text>",
        (wide / 2).saturating_add(LEFT),
        BOTTOM + 44,
        by.words()
    )?;
    println!(rt;
        "<text transform=\"translate(20 {}) rotate(-90)\" text-anchor=\"middle\">nanoseconds an operation</text>",
        TOP + HIGH / 2
    )?;
    Ok(())
}
