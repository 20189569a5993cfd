//! The beginning of a picture, its lanes, and its pairs.

use crate::layout::{BOX_HEIGHT, Corner, Plan};
use crate::ports::Arrow;
use crate::sheet::Sheet;
use explain_lines::{Part, say_line};
use report_rules::Report;
use std::alloc::AllocError;
use weave_text::Text;

/// Writes the beginning: the size, how everything looks, and a white ground.
pub(crate) fn begin(text: &mut Text, plan: &Plan) -> Result<(), AllocError> {
    let width = Part::Number(plan.width());
    let height = Part::Number(plan.height());
    say_line(
        text,
        "<svg xmlns='http://www.w3.org/2000/svg' width='%' height='%' viewBox='0 0 % %'>",
        &[width, height, width, height],
    )?;
    text.push(STYLE)?;
    say_line(
        text,
        "<rect class='ground' width='%' height='%'/>",
        &[width, height],
    )
}

const STYLE: &[u8] = b"<style>
text { font-family: 'DejaVu Sans Mono', Menlo, Consolas, monospace; font-size: 11px; fill: #111 }
.title { font-size: 14px; font-weight: bold }
.verdict { font-size: 13px; font-weight: bold }
.wrong { fill: #c00 }
.small { fill: #444 }
.place { font-size: 10px; font-weight: bold }
.count { font-size: 9px; fill: #666 }
.name { font-weight: bold }
.stamp { fill: #333 }
.name, .stamp, .outcome, .vertex { paint-order: stroke; stroke: #fff; stroke-width: 3px; stroke-linejoin: round }
.vertex { font-size: 10px }
.ground { fill: #fff }
.lane { fill: #f4f4f4; stroke: #ddd }
.box { stroke: #222; stroke-width: 1.5 }
.committed { fill: #cfe8cf }
.finished { fill: #cfdff5 }
.conflict { fill: url(#lines); stroke-dasharray: 7 3 }
.refused { fill: url(#dots); stroke-dasharray: 2 2 }
.open { fill: #fff; stroke-dasharray: 1 4 }
.mark { fill: none; stroke: #c00; stroke-width: 4 }
.session { fill: none; stroke: #999; stroke-width: 1 }
.knot { fill: #777 }
.guide { stroke: #bbb; stroke-dasharray: 1 3 }
.pair { fill: none; stroke: #333; stroke-width: 1.2; marker-end: url(#tip) }
.wrongpair { fill: none; stroke: #c00; stroke-width: 3; marker-end: url(#tip) }
</style>
<defs>
<marker id='tip' viewBox='0 0 8 8' refX='7' refY='4' markerUnits='userSpaceOnUse' markerWidth='8' markerHeight='8' \
orient='auto'><path d='M 0 0 L 8 4 L 0 8 z'/></marker>
<pattern id='lines' width='8' height='8' patternUnits='userSpaceOnUse'><rect width='8' height='8' fill='#fbe3c0'/>\
<path d='M 0 8 L 8 0 M -2 2 L 2 -2 M 6 10 L 10 6' stroke='#e0bb7c'/></pattern>
<pattern id='dots' width='8' height='8' patternUnits='userSpaceOnUse'><rect width='8' height='8' fill='#f6d5d5'/>\
<circle cx='2' cy='2' r='1.1' fill='#d59a9a'/><circle cx='6' cy='6' r='1.1' fill='#d59a9a'/></pattern>
</defs>
";

/// Draws the lanes, with the names of the gatekeepers.
pub(crate) fn draw_lanes(text: &mut Text, plan: &Plan) -> Result<(), AllocError> {
    for lane in 0..plan.lanes {
        let top = plan.lane_top(lane);
        say_line(
            text,
            "<rect class='lane' x='4' y='%' width='%' height='%'/><text class='small' x='10' y='%'>gatekeeper %</text>",
            &[
                Part::Number(top.saturating_add(4)),
                Part::Number(plan.width().saturating_sub(8)),
                Part::Number(BOX_HEIGHT.saturating_add(12)),
                Part::Number(top.saturating_add(40)),
                Part::Number(lane),
            ],
        )?;
    }
    Ok(())
}

/// Draws the lines of the pairs: from under a box down to a track, along it, and up to another box.
pub(crate) fn draw_arrows(
    text: &mut Text,
    plan: &Plan,
    corners: &[Corner],
    arrows: &[Arrow],
    sheet: &Sheet,
) -> Result<(), AllocError> {
    for arrow in arrows {
        let class: &[u8] = if is_marked(sheet, arrow) {
            b"wrongpair"
        } else {
            b"pair"
        };
        say_line(
            text,
            "<path class='%' d='M % % V % H % V %'/>",
            &[
                Part::Word(class),
                Part::Number(arrow.from),
                Part::Number(box_end(corners, arrow.from_column)),
                Part::Number(plan.track_y(arrow.track)),
                Part::Number(arrow.to),
                Part::Number(box_end(corners, arrow.to_column)),
            ],
        )?;
    }
    Ok(())
}

// Whether a pair breaks what `check` names.
fn is_marked(sheet: &Sheet, arrow: &Arrow) -> bool {
    let from = sheet.drawn.get(arrow.from_column as usize);
    let to = sheet.drawn.get(arrow.to_column as usize);
    sheet.verdict.mark.is_pair(arrow.number, from, to)
}

// The lower end of the box in a column.
fn box_end(corners: &[Corner], column: u64) -> u64 {
    match corners.get(column as usize) {
        Some(corner) => corner.y.saturating_add(BOX_HEIGHT),
        None => 0,
    }
}

/// Writes the pairs' vertices, over the lines.
pub(crate) fn draw_vertices(
    text: &mut Text,
    plan: &Plan,
    report: &Report,
    arrows: &[Arrow],
) -> Result<(), AllocError> {
    for arrow in arrows {
        if let Some(pair) = report.pairs.as_slice().get(arrow.number as usize) {
            say_line(
                text,
                "<text class='vertex' x='%' y='%'>%</text>",
                &[
                    Part::Number(arrow.left.saturating_add(5)),
                    Part::Number(plan.track_y(arrow.track).saturating_sub(4)),
                    Part::Xml(pair.vertex.bytes()),
                ],
            )?;
        }
    }
    Ok(())
}
