//! The picture's colours and letters. Nodes have the eight colours of Okabe and Ito, which are told apart by readers
//! who see red and green alike; paper, words and empty bands go by what the reader prefers, light or dark.

/// The rules of the picture's style sheet, of which the first eight nodes need no more.
pub(crate) const STYLE: &[u8] = b":root{color-scheme:light dark}
.paper{fill:#fcfcfa}.band{fill:#ecece6}.grid{fill:none;stroke:#d6d6ce;stroke-width:1;vector-effect:non-scaling-stroke}
text{font-family:system-ui,-apple-system,'Segoe UI',sans-serif;font-size:12px;fill:#2a2d31}
.head{font-size:18px;font-weight:600}.slots,.half{text-anchor:end}text{font-variant-numeric:tabular-nums}
.node{font-weight:600}.half,.scale text{font-size:11px;fill:#6d7075}.scale text{text-anchor:middle}
.scale path{stroke:#a9abad;fill:none}.legend{font-size:13px}
.count{font-size:11px;text-anchor:middle;paint-order:stroke;stroke:#fcfcfa;stroke-width:3px;stroke-linejoin:round}
rect[data-node]{stroke:#fcfcfa;stroke-width:1.5px;vector-effect:non-scaling-stroke}
.ribbon{fill-opacity:.4}.ribbon:hover{fill-opacity:.7}.stripe{stroke:#fff;stroke-opacity:.75;stroke-width:2.5px}
.open{stroke:#2a2d31;stroke-width:8px;stroke-dasharray:2px 2px;fill:none;vector-effect:non-scaling-stroke}
.node-0{fill:#E69F00}.node-1{fill:#56B4E9}.node-2{fill:#009E73}.node-3{fill:#F0E442}
.node-4{fill:#0072B2}.node-5{fill:#D55E00}.node-6{fill:#CC79A7}.node-7{fill:#999999}
@media (prefers-color-scheme:dark){.paper{fill:#17191c}.band{fill:#26292d}.grid{stroke:#3a3e43}text{fill:#e6e6e1}
.half,.scale text{fill:#9a9da1}.scale path{stroke:#6d7075}.count,rect[data-node]{stroke:#17191c}.open{stroke:#f4f4ef}}
";
