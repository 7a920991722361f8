//! The looks of a page and of a drawing that is alone.

/// Colours, light and dark. Those of leader epochs are Okabe and Ito's, which the colour-blind can distinguish.
pub const STYLE: &str =
    ":root { color-scheme: light dark; --ink: #1f2328; --paper: #ffffff; --lane: #f4f5f7; --faint: #656d76; --line: #c9ced6; --bad: #b3261e }
@media (prefers-color-scheme: dark) { :root { --ink: #e6edf3; --paper: #16181c; --lane: #23272e; --faint: #9aa4af; --line: #4a525c; --bad: #ff8a75 } }
svg text { fill: var(--ink); font: 12px system-ui, sans-serif }
svg .paper { fill: var(--paper) }
svg .lane { fill: var(--lane); stroke: var(--line) }
svg .scale, svg .time { fill: var(--faint); font-size: 10px }
svg .scale { text-anchor: end }
svg .epoch { font-size: 10px; font-weight: bold; stroke: var(--lane); stroke-width: 3px; paint-order: stroke }
svg .e0 { fill: #56b4e9 } svg .e1 { fill: #e69f00 } svg .e2 { fill: #009e73 } svg .e3 { fill: #cc79a7 }
svg .e4 { fill: #f0e442 } svg .e5 { fill: #0072b2 } svg .e6 { fill: #d55e00 }
svg .soft { fill-opacity: .4 }
svg .off { fill-opacity: .2 }
svg .off.soft { fill-opacity: .08 }
svg .remote { fill: #8c959f; stroke: var(--paper) }
svg .copying { fill: #8c959f; fill-opacity: .35; stroke: #8c959f; stroke-dasharray: 2 2 }
svg .start, svg .high { fill: none; stroke: var(--ink); stroke-width: 1.5 }
svg .start { stroke-dasharray: 4 3 }
svg .entry { fill: var(--ink); fill-opacity: 0 }
svg a:hover .entry { fill-opacity: .15 }
svg .mark { fill: var(--ink); stroke: var(--ink); stroke-width: 1.5 }
svg .refused, svg .stopped { fill: none }
svg .refused { stroke: var(--faint) }
svg .fault { fill: var(--bad); stroke: var(--bad) }
";

/// What a page has beside the drawings.
pub const PAGE_STYLE: &str =
    "body { background: var(--paper); color: var(--ink); font: 14px/1.4 system-ui, sans-serif; margin: 16px }
h1 { font-size: 18px; margin: 0 0 4px } h2 { font-size: 16px; margin: 20px 0 4px }
.run { display: flex; gap: 20px; align-items: flex-start }
.run figure { flex: 0 1 auto; min-width: 0; margin: 0; overflow-x: auto }
.run ol { flex: 0 0 25em; margin: 0; padding-left: 3.5em; max-height: 90vh; overflow-y: auto; font-size: 13px }
@media (max-width: 1000px) { .run { flex-direction: column } .run ol { flex: none; max-height: none } }
li span { color: var(--faint); display: block; overflow-wrap: anywhere }
li b { color: var(--bad) } li:target { background: var(--lane) }
p { color: var(--faint); max-width: 70em; font-size: 13px }
";
